//! What no clause says: that the definitions mean what the language's description says, and that each call that
//! allocates can succeed.
use crate::{
    Addr, Block, BlockFault, Items, Line, LineFault, Lines, Text, WordFault, Words, address,
    cut_blocks, cut_run, cut_startup, end_of_line, keyword, mask, mask_bits, number, parse_addr,
    parse_mask, parse_number, push_address, push_address_port, push_bytes, push_number,
};
use std::alloc::Global;
use std::test::Fail;

#[test]
fn lines_end_at_line_feeds(rt: HostRuntime) {
    let text = b"a \t\r\n\n b\rc\r\n!\t\n: end\nlast \r";
    let wanted: [(&[u8], bool, bool, bool); 6] = [
        (b"a", true, false, false),
        (b"", false, false, false),
        (b" b\rc", true, true, false),
        (b"!", false, false, false),
        (b": end", false, false, true),
        (b"last \r", true, false, false),
    ];
    let mut lines = Lines::new(text, 1);
    for (i, (bytes, kept, indented, end)) in wanted.iter().enumerate() {
        assert_eq!(rt; lines.number() as usize, i + 1);
        match lines.next() {
            Some(line) => {
                assert_eq!(rt; line.text(), *bytes);
                assert_eq!(rt; line.number() as usize, i + 1);
                assert_eq!(rt; line.is_kept(), *kept, "line {i}");
                assert_eq!(rt; line.is_indented(), *indented, "line {i}");
                assert_eq!(rt; line.is_end(), *end, "line {i}");
            }
            None => assert!(rt; false, "line {i} is missing"),
        }
    }
    assert!(rt; lines.next().is_none());
}

#[test]
fn a_last_line_feed_begins_no_line(rt: HostRuntime) {
    for (text, first, second, third) in [
        (b"".as_slice(), false, false, false),
        (b"\n", true, false, false),
        (b"a", true, false, false),
        (b"a\n", true, false, false),
        (b"a\n\n", true, true, false),
    ] {
        let mut lines = Lines::new(text, 7);
        assert_eq!(rt; lines.next().is_some(), first, "in {text:?}");
        assert_eq!(rt; lines.next().is_some(), second, "in {text:?}");
        assert_eq!(rt; lines.next().is_some(), third, "in {text:?}");
    }
}

#[test]
fn words_have_the_columns_of_their_first_bytes(rt: HostRuntime) {
    let mut words = Words::of(b" ip\taddress  10.0.0.1");
    for (column, bytes) in [(2, b"ip".as_slice()), (5, b"address"), (14, b"10.0.0.1")] {
        assert!(rt; words.next_is(bytes));
        assert_eq!(rt; words.column(), column);
        match words.next() {
            Some(word) => {
                assert_eq!(rt; word.column(), column);
                assert_eq!(rt; word.bytes(), bytes);
            }
            None => assert!(rt; false, "the word at {column} is missing"),
        }
    }
    assert!(rt; words.copy().next().is_none());
    assert_eq!(rt; words.column(), 22);
    assert_eq!(rt; words.end(), 22);
}

#[test]
fn addresses_are_four_short_numbers(rt: HostRuntime) {
    for (word, wanted) in [
        (b"".as_slice(), Err(WordFault::Empty)),
        (b"0.0.0.0", Ok(Addr(0))),
        (b"255.255.255.255", Ok(Addr(0xffff_ffff))),
        (b"10.001.02.3", Ok(Addr(0x0a01_0203))),
        (b"1.2.3.0004", Err(WordFault::OutOfRange)),
        (b"0300.1.1.1", Err(WordFault::OutOfRange)),
        (b"256.0.0.0", Err(WordFault::OutOfRange)),
        (b"99999999999999999999.1.1.1", Err(WordFault::OutOfRange)),
        (b"1.2.3", Err(WordFault::NotANumber)),
        (b"1.2.3.4.5", Err(WordFault::NotANumber)),
        (b"1.2..4", Err(WordFault::NotANumber)),
        (b"1.2.3.x", Err(WordFault::NotANumber)),
        (b"256.0.0", Err(WordFault::NotANumber)),
    ] {
        assert_eq!(rt; parse_addr(word), wanted, "at {word:?}");
    }
}

#[test]
fn masks_are_ones_followed_by_zeros(rt: HostRuntime) {
    for (word, wanted) in [
        (b"".as_slice(), Err(WordFault::Empty)),
        (b"0.0.0.0", Ok(0)),
        (b"128.0.0.0", Ok(1)),
        (b"255.255.255.0", Ok(24)),
        (b"255.255.255.255", Ok(32)),
        (b"255.0.255.0", Err(WordFault::OutOfRange)),
        (b"0.0.0.255", Err(WordFault::OutOfRange)),
        (b"255.255.255", Err(WordFault::NotANumber)),
    ] {
        assert_eq!(rt; parse_mask(word), wanted, "at {word:?}");
    }
    assert_eq!(rt; mask_bits(0), 0);
    assert_eq!(rt; mask_bits(9), 0xff80_0000);
    assert_eq!(rt; mask_bits(32), 0xffff_ffff);
}

#[test]
fn numbers_lie_between_their_bounds(rt: HostRuntime) {
    let most = u64::MAX;
    for (word, least, greatest, wanted) in [
        (b"".as_slice(), 0, 9, Err(WordFault::Empty)),
        (b"+1", 0, 9, Err(WordFault::NotANumber)),
        (b"1a", 0, 9, Err(WordFault::NotANumber)),
        (b"000000000000000000000000000007", 1, 9, Ok(7)),
        (b"0", 1, 9, Err(WordFault::OutOfRange)),
        (b"1", 1, 9, Ok(1)),
        (b"9", 1, 9, Ok(9)),
        (b"10", 1, 9, Err(WordFault::OutOfRange)),
        (b"18446744073709551615", 0, most, Ok(most)),
        (b"18446744073709551616", 0, most, Err(WordFault::OutOfRange)),
        (
            b"99999999999999999999999",
            0,
            most,
            Err(WordFault::OutOfRange),
        ),
    ] {
        assert_eq!(rt; parse_number(word, least, greatest), wanted, "at {word:?}");
    }
}

#[test]
fn readers_name_the_column_of_a_fault(rt: HostRuntime) {
    let mut words = Words::of(b"route 10.0.0.0 255.0.0.0 1 x");
    assert_eq!(rt; keyword(&mut words, b"route"), Ok(()));
    assert_eq!(rt; address(&mut words), Ok(Addr(0x0a00_0000)));
    assert_eq!(rt; mask(&mut words), Ok(8));
    assert_eq!(rt; number(&mut words, 1, 255), Ok(1));
    assert_eq!(rt; end_of_line(&mut words), Err(LineFault::Bad { column: 28 }));
    assert_eq!(rt;
        keyword(&mut words, b"y"),
        Err(LineFault::Bad { column: 28 })
    );
    assert_eq!(rt; end_of_line(&mut words), Ok(()));
    assert_eq!(rt;
        number(&mut words, 1, 255),
        Err(LineFault::Bad { column: 29 })
    );
    for (text, wanted) in [
        (
            b" 2001:db8::1".as_slice(),
            LineFault::Unsupported { column: 2 },
        ),
        (b" 10.0.0.300", LineFault::Bad { column: 2 }),
    ] {
        assert_eq!(rt; address(&mut Words::of(text)), Err(wanted));
        assert_eq!(rt;
            mask(&mut Words::of(text)),
            Err(LineFault::Bad { column: 2 })
        );
    }
}

#[test]
fn a_word_is_taken_where_it_comes_next(rt: HostRuntime) {
    let mut words = Words::of(b"ip  any");
    assert!(rt; !words.takes(b"any"));
    assert!(rt; words.takes(b"ip"));
    assert_eq!(rt; words.bad(), LineFault::Bad { column: 5 });
    assert_eq!(rt; words.unsupported(), LineFault::Unsupported { column: 5 });
    assert!(rt; words.takes(b"any"));
    assert_eq!(rt; words.bad(), LineFault::Bad { column: 8 });
}

#[test]
fn a_run_ends_before_a_stop(rt: HostRuntime) {
    assert_eq!(rt;
        cut_run(b"1:02", b':'),
        (b"1".as_slice(), Some(b"02".as_slice()))
    );
    assert_eq!(rt;
        cut_run(b"1:", b':'),
        (b"1".as_slice(), Some(b"".as_slice()))
    );
    assert_eq!(rt; cut_run(b"1.2", b':'), (b"1.2".as_slice(), None));
}

/// The numbers of the lines of each block.
fn numbers_of(alloc: Global, blocks: &Items<Block>) -> Result<Vec<Vec<u32>>, Fail> {
    let mut all = Vec::new(alloc);
    for block in blocks.as_slice() {
        let mut numbers = Vec::new(alloc);
        for line in block.lines.as_slice() {
            numbers.push(line.number)?;
        }
        all.push(numbers)?;
    }
    Ok(all)
}

#[test]
fn indented_lines_belong_to_the_top_line_before_them(rt: HostRuntime) -> Result<(), Fail> {
    let text = b"! nothing\n\ninterface x\n nameif a\n: a comment\n\n\tshutdown\nroute y\nz\n  w\n";
    let blocks = cut_blocks(rt.alloc(), text, 10)?.map_err(|_| "a fault")?;
    let numbers = numbers_of(rt.alloc(), &blocks)?;
    let wanted = vec![in rt.alloc();
        vec![in rt.alloc(); 12, 13, 16]?,
        vec![in rt.alloc(); 17]?,
        vec![in rt.alloc(); 18, 19]?,
    ]?;
    assert_eq!(rt; numbers.as_slice(), wanted.as_slice());
    assert_eq!(rt; blocks.len(), 3);
    match blocks.as_slice() {
        [first, ..] => {
            assert_eq!(rt; first.top().text.as_bytes(), b"interface x".as_slice());
            assert_eq!(rt; first.lines.as_slice().len(), 3);
        }
        [] => assert!(rt; false, "no block"),
    }
    Ok(())
}

#[test]
fn an_indented_line_without_a_top_line_is_a_fault(rt: HostRuntime) -> Result<(), Fail> {
    for (text, wanted) in [
        (b"!\n a\n b\nc\n".as_slice(), Some(BlockFault { line: 2 })),
        (b" a", Some(BlockFault { line: 1 })),
        (b"a\n b\n", None),
        (b"", None),
    ] {
        assert_eq!(rt;
            cut_blocks(rt.alloc(), text, 1)?.err(),
            wanted,
            "in {text:?}"
        );
    }
    Ok(())
}

#[test]
fn the_startup_part_ends_at_its_comment(rt: HostRuntime) -> Result<(), Fail> {
    for (text, ended, blocks, next) in [
        (b"a\n b\n: end\nlane 1\n".as_slice(), true, Ok(1), 4),
        (b"a\n: end \t\r\n", true, Ok(1), 3),
        (b"a\n: end x\nb\n", false, Ok(2), 4),
        (b" : end\n", false, Err(BlockFault { line: 1 }), 2),
        (b": end", true, Ok(0), 2),
        (b"", false, Ok(0), 1),
    ] {
        let mut lines = Lines::new(text, 1);
        let startup = cut_startup(rt.alloc(), &mut lines)?;
        assert_eq!(rt; startup.ended, ended, "in {text:?}");
        assert_eq!(rt; lines.number(), next, "in {text:?}");
        assert_eq!(rt;
            startup.blocks.map(|found| found.len()),
            blocks,
            "in {text:?}"
        );
    }
    Ok(())
}

#[test]
fn a_block_is_made_of_lines_of_its_form(rt: HostRuntime) -> Result<(), Fail> {
    for (texts, wanted) in [
        ([b"a".as_slice(), b" b".as_slice()], true),
        ([b" a", b" b"], false),
        ([b"a", b"b"], false),
        ([b"a", b""], false),
        ([b"!", b" b"], false),
        ([b"a", b" \t"], false),
    ] {
        let mut lines = Vec::new(rt.alloc());
        for text in texts {
            assert!(rt; text.len() < 10);
            let text = Text::from_slice(rt.alloc(), text)?;
            lines.push(Line { number: 1, text })?;
        }
        let block = Block::new(lines);
        assert_eq!(rt; block.is_some(), wanted, "of {texts:?}");
        if let Some(block) = block {
            assert!(rt; block.top_words().takes(b"a"));
            assert_eq!(rt; block.inner_lines().len(), 1);
        }
    }
    assert!(rt; Block::new(Vec::new(rt.alloc())).is_none());
    Ok(())
}

#[test]
fn values_are_printed_in_decimal(rt: HostRuntime) -> Result<(), Fail> {
    let mut out = Vec::new(rt.alloc());
    push_address(&mut out, Addr(0xc0a8_0102))?;
    push_bytes(&mut out, b" > ")?;
    push_address_port(&mut out, Addr(0x0a00_00ff), 65535)?;
    push_bytes(&mut out, b" ")?;
    push_number(&mut out, 18_446_744_073_709_551_615)?;
    assert_eq!(rt;
        out.as_slice(),
        b"192.168.1.2 > 10.0.0.255:65535 18446744073709551615".as_slice()
    );
    Ok(())
}

#[test]
fn items_grow_at_their_end_and_are_copied(rt: HostRuntime) -> Result<(), Fail> {
    let mut items: Items<u32> = Items::with_capacity(rt.alloc(), 1)?;
    assert!(rt; items.is_empty());
    items.push(3)?;
    items.push(4)?;
    let copy = items.copy(rt.alloc())?;
    assert_eq!(rt; copy.as_slice(), [3, 4].as_slice());
    let again = Items::from(copy.into_vec());
    assert_eq!(rt; again.len(), 2);
    Ok(())
}
