use crate::deed::Deed;
use crate::meetings::{Meeting, meet};
use crate::start::open_live;
use crate::toys::Adder;
use std::process::Abort;
use std::test::*;

/// No public call lets a reader see what the writer has not published, so the test does it.
#[test]
fn a_reader_that_has_seen_more_is_ahead(rt: HostRuntime) -> Result<(), Fail> {
    let (mut writer, mut reader, _further) = open_live::<Adder, _>(&rt, rt.alloc(), 0, 0, 0)?;
    let added = writer.add(&rt, 5, ());
    let longer = writer
        .front
        .with(&writer.head, &Deed { entry: 6, load: () });
    let met = match longer {
        Some(front) => {
            reader.see(front);
            Some(meet(&mut reader, &mut writer))
        }
        None => None,
    };
    let refused = writer.add(&rt, 7, ());
    writer.close(&rt);
    assert!(&rt; added.is_ok() && refused.is_err());
    assert_eq!(&rt;
        met,
        Some(Meeting::Ahead {
            reader: 2,
            writer: 1
        })
    );
    Ok(())
}
