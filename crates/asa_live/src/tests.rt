ghost use Rattle.std.specs.Prelude.{◌≡◌, All, IfSome, None};

use crate::toys::{Adder, Board, HEAVY, Posting, Sheet};
use crate::{Meeting, Reader, Writer, meet, open_live};
use std::alloc::Global;
use std::process::Abort;
use std::sync::{Mutex, Wait};
use std::test::*;
use std::thread::{Threads, join};

const ENTRIES: u64 = 60;

const READS: u64 = 200;

/// The sum of the first entries, which are 0, 1, 2 and so on.
fn sum_of_first(rt: &impl Abort, count: u64) -> u64 {
    assert!(rt; count <= ENTRIES);
    (0..count).fold(0, |sum: u64, amount| sum.saturating_add(amount))
}

/// Reads once, and gives the number of entries, which is no less than `least`.
fn look(rt: &impl Abort, reader: &mut Reader<Adder>, least: u64) -> u64
    requires { reader.old.opened ≡ None }
    ensures { reader.new.opened ≡ None }
{
    let Ok(count) = reader.read() else {
        panic!(rt; "the copy was not given");
    };
    let total = *reader.state();
    reader.leave();
    assert!(rt; least <= count, "{count} entries after {least}");
    assert_eq!(rt; total, sum_of_first(rt, count));
    count
}

fn watch(rt: &impl Abort, mut reader: Reader<Adder>) -> Reader<Adder>
    requires { reader.opened ≡ None }
    ensures { result.opened ≡ None }
{
    let mut seen = 0;
    for _ in 0..READS {
        seen = look(rt, &mut reader, seen);
    }
    reader
}

/// The last of the further readers.
fn last_of(rt: &impl Abort, mut further: Vec<Option<Reader<Adder>>>) -> Reader<Adder>
    requires { All (λ place. IfSome place (λ reader. reader.opened ≡ None)) further.items }
    ensures { result.opened ≡ None }
{
    let Some(Some(reader)) = further.pop() else {
        panic!(rt; "a further reader is missing");
    };
    reader
}

fn watch_both<R: Threads + Abort + Sync>(
    rt: &R,
    first: Reader<Adder>,
    second: Reader<Adder>,
) -> (Reader<Adder>, Reader<Adder>)
    requires one { first.opened ≡ None }
    requires other { second.opened ≡ None }
    ensures { (result.0.opened ≡ None) × (result.1.opened ≡ None) }
{
    join(rt, || watch(rt, first), || watch(rt, second))
}

/// Whether each entry got its number.
fn fill<R: Wait>(rt: &R, writer: &mut Writer<Adder>) -> bool {
    let mut all = true;
    for amount in 0..ENTRIES {
        all = matches!(writer.add(rt, amount, ()), Ok(number) if number == amount) && all;
    }
    all
}

#[test]
fn readers_beside_a_writer_see_the_sum_of_a_beginning(rt: HostRuntime) -> Result<(), Fail> {
    let (mut writer, first, further) = open_live::<Adder, _>(&rt, rt.alloc(), 0, 0, 1)?;
    let second = last_of(&rt, further);
    let ((mut first, mut second), all) = join(
        &rt,
        || watch_both(&rt, first, second),
        || fill(&rt, &mut writer),
    );
    assert!(&rt; all);
    assert_eq!(&rt; look(&rt, &mut first, 0), ENTRIES);
    assert_eq!(&rt; look(&rt, &mut second, 0), ENTRIES);
    assert_eq!(&rt; writer.count(), ENTRIES);
    writer.close(&rt);
    Ok(())
}

#[test]
fn a_meeting_gives_the_reader_what_was_written(rt: HostRuntime) -> Result<(), Fail> {
    let (mut writer, mut reader, _further) = open_live::<Adder, _>(&rt, rt.alloc(), 0, 0, 0)?;
    let none = meet(&mut reader, &mut writer);
    let added = (writer.add(&rt, 3, ()), writer.add(&rt, 4, ()));
    let two = meet(&mut reader, &mut writer);
    let count = reader.read();
    let total = match count {
        Ok(_) => {
            let total = *reader.state();
            reader.leave();
            total
        }
        Err(_) => 0,
    };
    writer.close(&rt);
    assert_eq!(&rt; (none, two), (Meeting::Within, Meeting::Within));
    assert_eq!(&rt; (added.0?, added.1?), (0, 1));
    assert_eq!(&rt; (count.ok(), total), (Some(2), 7));
    Ok(())
}

#[test]
fn after_want_of_memory_readers_see_the_same_and_no_more_is_added(
    rt: HostRuntime,
) -> Result<(), Fail> {
    let (mut writer, mut reader, _further) = open_live::<Adder, _>(&rt, rt.alloc(), 0, 0, 0)?;
    let added = writer.add(&rt, 0, ());
    let heavy = writer.add(&rt, HEAVY, ());
    let seen = look(&rt, &mut reader, 0);
    let later = writer.add(&rt, 1, ());
    let again = look(&rt, &mut reader, 0);
    let count = writer.count();
    writer.close(&rt);
    assert!(&rt; added.is_ok() && heavy.is_err() && later.is_err());
    assert_eq!(&rt; (seen, again, count), (1, 1, 1));
    Ok(())
}

fn read_board(rt: &impl Abort, reader: &mut Reader<Posting>) -> u64
    requires { reader.old.opened ≡ None }
    ensures { reader.new.opened ≡ None }
{
    let Ok(count) = reader.read() else {
        panic!(rt; "the copy was not given");
    };
    let board = reader.state();
    let (poster, number) = (board.poster, board.sheet.number());
    reader.leave();
    assert_eq!(rt; poster, count);
    assert!(rt; poster <= ENTRIES);
    assert_eq!(rt; number, 10 * poster);
    count
}

fn watch_board(rt: &impl Abort, mut reader: Reader<Posting>) -> Reader<Posting>
    requires { reader.opened ≡ None }
    ensures { result.opened ≡ None }
{
    for _ in 0..READS {
        read_board(rt, &mut reader);
    }
    reader
}

fn post<R: Wait>(rt: &R, alloc: Global, writer: &mut Writer<Posting>) -> bool {
    for poster in 1..=ENTRIES {
        let Ok(sheet) = Sheet::new(alloc, 10 * poster) else {
            return false;
        };
        if writer.add(rt, poster, sheet).is_err() {
            return false;
        }
    }
    true
}

#[test]
fn shared_parts_are_read_beside_the_writer(rt: HostRuntime) -> Result<(), Fail> {
    let sheet = Sheet::new(rt.alloc(), 0)?;
    let first = Board {
        poster: 0,
        sheet: sheet.share()?,
    };
    let second = Board { poster: 0, sheet };
    let (mut writer, reader, _further) = open_live::<Posting, _>(
        &rt,
        rt.alloc(),
        first,
        second,
        0,
    )?;
    let alloc = rt.alloc();
    let (mut reader, all) = join(
        &rt,
        || watch_board(&rt, reader),
        || post(&rt, alloc, &mut writer),
    );
    let count = read_board(&rt, &mut reader);
    writer.close(&rt);
    assert!(&rt; all);
    assert_eq!(&rt; count, ENTRIES);
    Ok(())
}

/// What lies under the lock: the writer, beside a number of its own.
struct Desk {
    writer: Writer<Adder>,
    added: u64,
}

fn fill_desk<R: Wait>(rt: &R, desk: &Mutex<Desk>) {
    for _ in 0..ENTRIES {
        let mut desk = desk.lock(rt);
        if desk.writer.add(rt, 1, ()).is_ok() {
            desk.added = desk.added.saturating_add(1);
        }
    }
}

#[test]
fn a_writer_stands_behind_a_lock(rt: HostRuntime) -> Result<(), Fail> {
    let (writer, mut reader, _further) = open_live::<Adder, _>(&rt, rt.alloc(), 0, 0, 0)?;
    let desk = Mutex::new(Desk { writer, added: 0 });
    join(&rt, || fill_desk(&rt, &desk), || fill_desk(&rt, &desk));
    let Desk { writer, added } = desk.into_inner();
    let count = writer.count();
    let read = reader.read().ok();
    if read.is_some() {
        reader.leave();
    }
    writer.close(&rt);
    assert_eq!(&rt;
        (added, count, read),
        (2 * ENTRIES, 2 * ENTRIES, Some(2 * ENTRIES))
    );
    Ok(())
}
