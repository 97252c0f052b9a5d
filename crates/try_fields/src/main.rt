// Text, values, the walk and append at each side of every line that document 01 draws; each case on a line with its answer.
#![tactic(auto)]

use fields::{AppendRefusal, Cursor, Uuid, Value};
use std::{fmt, io};

// The bytes in hexadecimal, how many of them are a well-formed start, and whether they are a Text or where it goes wrong.
fn text_case(rt: &impl Print, s: &[u8]) -> io::Result<()> {
    for b in s {
        print!(rt; "{b:02x}")?;
    }
    let n = text::formed_start(s);
    print!(rt; ": well formed to {n}, ")?;
    match text::goes_wrong(s) {
        None => println!(rt; "Text"),
        Some(at) => println!(rt; "BadText {at}"),
    }
}

// Cases with a space between them, under their title.
fn texts(rt: &impl Print, title: &str, cases: &[u8]) -> io::Result<()> {
    println!(rt; "-- {title}")?;
    for s in cases.split(|b| *b == b' ') {
        text_case(rt, s)?;
    }
    Ok(())
}

fn utf8(rt: &impl Print) -> io::Result<()> {
    texts(
        rt,
        "UTF8-1 and UTF8-2",
        b"\x7f \x80 \xbf \xc0\x80 \xc1\xbf \xc2\x7f \xc2\x80 \xdf\xbf \xdf\xc0 \xc2",
    )?;
    texts(
        rt,
        "UTF8-3: overlong, surrogates, cut",
        b"\xe0\x9f\xbf \xe0\xa0\x80 \xe1\x80\x80 \xec\xbf\xbf \xed\x9f\xbf \xed\xa0\x80 \xed\xbf\xbf \xee\x80\x80 \xef\xbf\xbf \xe1\x7f\x80 \xe1\x80\x7f \xe1\x80\xc0 \xe2\x82 \xe2",
    )?;
    texts(
        rt,
        "UTF8-4: overlong, past 10FFFF, cut",
        b"\xf0\x8f\xbf\xbf \xf0\x90\x80\x80 \xf1\x80\x80\x80 \xf3\xbf\xbf\xbf \xf4\x8f\xbf\xbf \xf4\x90\x80\x80 \xf5\x80\x80\x80 \xf1\x80\x7f\x80 \xf1\x80\x80\xc0 \xf0\x9f\x98 \xf0\x9f \xf0 \xfe \xff",
    )
}

fn marks_and_zeros(rt: &impl Print) -> io::Result<()> {
    texts(
        rt,
        "byte order mark, final 00",
        b"\xef\xbb\xbf \xef\xbb\xbfa a\xef\xbb\xbf \xef\xbb \x00 a\x00 \x00a a\x00b",
    )?;
    texts(
        rt,
        "behind whole characters; several faults, of which the first counts",
        b"a\xff a\xc3\xa4 a\xc3\xa4\xff ab\xc3 a\xe2\x82b a\xf0\x9f\x94\xa7 a\xf0\x9f\x94 a\xffb\xff\x00 \xef\xbb\xbfa\xff \xef\xbb\xbfa\x00 \x00\x00 a\xff\x00 a\xc3\x00 a\xff\xef\xbb\xbf",
    )
}

// A value as a case shows it.
#[derive(Clone, Copy)]
struct Shown(Value);

impl fmt::Display for Shown {
    fn fmt<W: fmt::Write>(&self, f: &mut fmt::Formatter<W>) -> fmt::Result {
        match self.0 {
            Value::Uuid(Uuid { low, high }) => write!(f, "Uuid {low} {high}"),
            Value::Time(t) => write!(f, "Time {t}"),
            Value::Number(n) => write!(f, "Number {n}"),
            Value::Flag(b) => write!(f, "Flag {b}"),
            Value::BadText(n) => write!(f, "BadText {n}"),
            plain => write!(f, "{plain:?}"),
        }
    }
}

// Appended at place 0, with as much of a fill as it needs.
fn put(buf: &mut [u8], kind: u8, content: &[u8]) -> Result<usize, AppendRefusal> {
    let n = fields::fill_for(content.len());
    fields::append(buf, 0, kind, content, &b"fill fill fill f"[..n])
}

// A field appended and walked: its value.
fn stored(rt: &impl Print, in_record: bool, kind: u8, content: &[u8]) -> io::Result<()> {
    let mut buf = [0u8; 64];
    if put(&mut buf, kind, content).is_err() {
        return print!(rt; " refused");
    }
    let c = Cursor {
        place: 0,
        in_record,
    };
    match fields::walk(&buf, c) {
        Ok(Some((field, _))) => print!(rt; " {}", Shown(field.value)),
        _ => print!(rt; " not taken"),
    }
}

fn side(in_record: bool) -> &'static str {
    if in_record { "record" } else { "header" }
}

// The values of data of 0, 1, 2, 3, 4 and 16 bytes.
fn row(rt: &impl Print, in_record: bool, kind: u8) -> io::Result<()> {
    print!(rt; "{} {kind:02x}:", side(in_record))?;
    for n in [0, 1, 2, 3, 4, 16] {
        stored(rt, in_record, kind, &b"abcdefghijklmnop"[..n])?;
    }
    println!(rt;)
}

fn single(rt: &impl Print, in_record: bool, kind: u8, content: &[u8]) -> io::Result<()> {
    print!(rt; "{} {kind:02x} of {}:", side(in_record), content.len())?;
    stored(rt, in_record, kind, content)?;
    println!(rt;)
}

fn values(rt: &impl Print) -> io::Result<()> {
    println!(rt; "-- values of a, ab, abc, abcd and 16 letters, by type")?;
    for in_record in [false, true] {
        for kind in (0..0x23).chain([0xfe, 0xff]) {
            row(rt, in_record, kind)?;
        }
    }
    println!(rt; "-- values of single fields")?;
    single(rt, true, 0x15, b"\x00")?;
    single(rt, true, 0x15, b"\x02")?;
    single(rt, true, 0x07, b"\xff\xff\xff\xff")?;
    single(rt, true, 0x03, b"caf\xc3\xa9")?;
    single(rt, true, 0x03, b"caf\xe9")?;
    single(rt, false, 0x00, b"\x0e\x03")?;
    println!(rt; "-- old save stamps")?;
    single(rt, false, 0x04, b"48c2f739")?;
    single(rt, false, 0x13, b"48C2F739")?;
    single(rt, false, 0x04, b"ffffffff")?;
    single(rt, false, 0x04, b"0000000g")?;
    single(rt, false, 0x04, b"0x48c2f7")?;
    single(rt, false, 0x04, b"+8c2f739")?;
    single(rt, false, 0x04, b"48c2f73")?;
    single(rt, false, 0x04, b"048c2f739")?;
    single(rt, true, 0x07, b"48c2f739")
}

fn appended(rt: &impl Print, answer: Result<usize, AppendRefusal>) -> io::Result<()> {
    match answer {
        Ok(next) => println!(rt; "next {next}"),
        Err(refusal) => println!(rt; "{}", u32::from(refusal)),
    }
}

fn sizes(rt: &impl Print) -> io::Result<()> {
    println!(rt; "-- blocks")?;
    for n in [0, 11, 12, 27, 28] {
        let mut buf = [0u8; 64];
        print!(rt; "data length {n}: ")?;
        let answer = put(&mut buf, 0x05, &b"0123456789012345678901234567"[..n]);
        appended(rt, answer)?;
    }
    Ok(())
}

fn appending(
    rt: &impl Print,
    name: &str,
    place: usize,
    kind: u8,
    content: &[u8],
    fill: &[u8],
) -> io::Result<()> {
    let mut buf = [0xeeu8; 64];
    print!(rt; "{name}: append ")?;
    appended(rt, fields::append(&mut buf, place, kind, content, fill))
}

fn appends(rt: &impl Print) -> io::Result<()> {
    println!(rt; "-- append to 64 bytes, in the order 11, 13, 12, 3")?;
    let one = b"012345678901";
    let two = b"012345678901234";
    appending(
        rt,
        "place 8, END with data, no fill, no room",
        8,
        0xff,
        b"a",
        b"",
    )?;
    appending(rt, "place 80", 80, 0x05, b"", &one[..11])?;
    appending(rt, "place 64, END with data, no fill", 64, 0xff, b"a", b"")?;
    appending(rt, "place 64, no fill", 64, 0x05, b"", b"")?;
    appending(rt, "place 64, right fill", 64, 0x05, b"", &one[..11])?;
    appending(
        rt,
        "place 48, one byte of fill too few",
        48,
        0x05,
        b"",
        &one[..10],
    )?;
    appending(
        rt,
        "place 48, one byte of fill too many",
        48,
        0x05,
        b"",
        one,
    )?;
    appending(rt, "place 48, one block", 48, 0x05, b"", &one[..11])?;
    appending(rt, "place 48, two blocks", 48, 0x05, one, two)?;
    appending(rt, "place 32, two blocks", 32, 0x05, one, two)?;
    appending(rt, "place 0, END", 0, 0xff, b"", &one[..11])
}

// A buffer that is longer than the longest body.
fn limit(rt: &impl Print) -> io::Result<()> {
    let mut buf = [0u8; 4194304];
    println!(rt; "-- append to 4194304 bytes")?;
    for place in [4194080, 4194096] {
        print!(rt; "place {place}: append ")?;
        appended(
            rt,
            fields::append(&mut buf, place, 0x05, b"", b"01234567890"),
        )?;
    }
    Ok(())
}

fn walking(rt: &impl Print, name: &str, body: &[u8], place: usize) -> io::Result<()> {
    print!(rt; "{name}: walk ")?;
    let c = Cursor {
        place,
        in_record: false,
    };
    match fields::walk(body, c) {
        Ok(Some((field, next))) => {
            print!(rt;
                "type {:02x} length {} {}",
                field.kind,
                field.len,
                Shown(field.value)
            )?;
            println!(rt; ", next {} {}", side(next.in_record), next.place)
        }
        Ok(None) => println!(rt; "end"),
        Err(refusal) => println!(rt; "{}", u32::from(refusal)),
    }
}

fn places(rt: &impl Print) -> io::Result<()> {
    println!(rt; "-- walk")?;
    let empty = b"\x00\x00\x00\x00\x05fill fill f";
    walking(rt, "place 8", empty, 8)?;
    walking(rt, "place 32 of 16", empty, 32)?;
    walking(rt, "place 16 of 16", empty, 16)?;
    walking(rt, "empty body", b"", 0)?;
    walking(rt, "15 bytes", &empty[..15], 0)?;
    walking(rt, "15 bytes, place 15", &empty[..15], 15)
}

fn lengths(rt: &impl Print) -> io::Result<()> {
    walking(rt, "length 0", b"\x00\x00\x00\x00\x05fill fill f", 0)?;
    walking(
        rt,
        "length 11 in one block",
        b"\x0b\x00\x00\x00\x05eleven data",
        0,
    )?;
    walking(
        rt,
        "length 12 in one block",
        b"\x0c\x00\x00\x00\x05eleven data",
        0,
    )?;
    walking(
        rt,
        "length 65536 in one block",
        b"\x00\x00\x01\x00\x05eleven data",
        0,
    )?;
    walking(
        rt,
        "length 4294967295 in a two-block body",
        b"\xff\xff\xff\xff\x05this is a body of two block",
        0,
    )?;
    walking(
        rt,
        "length 4294967291 in a two-block body",
        b"\xfb\xff\xff\xff\x05this is a body of two block",
        0,
    )?;
    walking(rt, "END", b"\x00\x00\x00\x00\xfffill fill f", 0)?;
    walking(rt, "END with data", b"\x01\x00\x00\x00\xffdfill fill ", 0)
}

fn main(rt: HostRuntime) -> io::Result<()> {
    utf8(&rt)?;
    marks_and_zeros(&rt)?;
    values(&rt)?;
    sizes(&rt)?;
    appends(&rt)?;
    limit(&rt)?;
    places(&rt)?;
    lengths(&rt)
}
