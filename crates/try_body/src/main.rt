// Bodies at each side of every line that document 01 draws, judged and searched; each case on a line with its answer.
#![tactic(auto)]

use body::{Counts, Place};
use fields::Uuid;
use std::io;

// A body, in the first bytes of a buffer: there is no heap.
#[derive(Clone, Copy)]
struct Built {
    buffer: [u8; 512],
    len: usize,
}

// Appends a field with so many bytes of data, the second of them as given, the others 61; where it is refused, the place stays.
fn put(buffer: &mut [u8], place: usize, kind: u8, len: u8, second: u8) -> usize {
    let mut letters = [0x61u8; 32];
    letters[1] = second;
    let len = usize::from(len);
    let Some(content) = letters.get(..len) else {
        return place;
    };
    let fill = &b"fill fill fill f"[..fields::fill_for(len)];
    fields::append(buffer, place, kind, content, fill).unwrap_or(place)
}

impl Built {
    // Three bytes for each field: its type, the length of its data, the second byte of its data.
    fn by(script: &[u8]) -> Built {
        let mut buffer = [0u8; 512];
        let mut len = 0;
        for [kind, size, second] in script.as_chunks::<3>().0 {
            len = put(&mut buffer, len, *kind, *size, *second);
        }
        Built { buffer, len }
    }

    // The same with one byte changed.
    fn changed(mut self, at: usize, to: u8) -> Built {
        if let Some(byte) = self.buffer.get_mut(at) {
            *byte = to;
        }
        self
    }

    // The same cut to so many bytes.
    fn cut(self, len: usize) -> Built {
        Built { len, ..self }
    }

    fn body(&self) -> &[u8] {
        self.buffer.get(..self.len).unwrap_or(&[])
    }
}

fn judged(rt: &impl Print, body: &[u8]) -> io::Result<()> {
    match body::judge(body) {
        Ok(Counts { headers, records }) => {
            println!(rt; "{headers} header fields, {records} records")
        }
        Err(refusal) => println!(rt; "{}", u32::from(refusal)),
    }
}

fn case(rt: &impl Print, name: &str, built: &Built) -> io::Result<()> {
    print!(rt; "{name}: ")?;
    judged(rt, built.body())
}

// A script for each name.
fn cases(rt: &impl Print, scripts: &[(&str, &[u8])]) -> io::Result<()> {
    for (name, script) in scripts {
        case(rt, name, &Built::by(script))?;
    }
    Ok(())
}

fn headers(rt: &impl Print) -> io::Result<()> {
    println!(rt; "-- header")?;
    cases(
        rt,
        &[
            ("Version, END", b"\x00\x02\x03\xff\x00\x00"),
            ("nothing", b""),
            ("Version without END", b"\x00\x02\x03"),
            ("END alone", b"\xff\x00\x00"),
            ("Version not first", b"\x02\x02\x03\x00\x02\x03\xff\x00\x00"),
            ("Version of 1 byte", b"\x00\x01\x03\xff\x00\x00"),
            ("Version of 3 bytes", b"\x00\x03\x03\xff\x00\x00"),
            ("Version, second byte 04", b"\x00\x02\x04\xff\x00\x00"),
        ],
    )
}

fn bytes(rt: &impl Print) -> io::Result<()> {
    println!(rt; "-- bytes")?;
    case(
        rt,
        "Version, END, last byte cut",
        &Built::by(b"\x00\x02\x03\xff\x00\x00").cut(31),
    )?;
    case(
        rt,
        "Version, END, one byte more",
        &Built::by(b"\x00\x02\x03\xff\x00\x00").cut(33),
    )?;
    case(
        rt,
        "Version, END, fill changed",
        &Built::by(b"\x00\x02\x03\xff\x00\x00").changed(31, 0x00),
    )?;
    case(
        rt,
        "END with data",
        &Built::by(b"\x00\x02\x03\xff\x00\x00").changed(16, 0x01),
    )
}

fn more_bytes(rt: &impl Print) -> io::Result<()> {
    case(
        rt,
        "END of a record with data",
        &Built::by(
            b"\x00\x02\x03\xff\x00\x00\x01\x10\x00\x03\x01\x00\x06\x01\x00\xff\x00\x00",
        ).changed(96, 0x01),
    )?;
    case(
        rt,
        "Title of one block, length 11",
        &Built::by(
            b"\x00\x02\x03\xff\x00\x00\x01\x10\x00\x03\x01\x00\x06\x01\x00\xff\x00\x00",
        ).changed(64, 0x0b),
    )?;
    case(
        rt,
        "Title of one block, length 12",
        &Built::by(
            b"\x00\x02\x03\xff\x00\x00\x01\x10\x00\x03\x01\x00\x06\x01\x00\xff\x00\x00",
        ).changed(64, 0x0c),
    )
}

fn huge(rt: &impl Print) -> io::Result<()> {
    print!(rt; "length 4294967295 in a two-block body: ")?;
    judged(
        rt,
        b"\xff\xff\xff\xff\x00\x0e\x03fill fill\x00\x00\x00\x00\xfffill fill f",
    )
}

// One more of a type after the Version, and two more.
fn repeat(rt: &impl Print, kind: u8) -> io::Result<()> {
    let one = [0x00, 0x02, 0x03, kind, 0x02, 0x03, 0xff, 0x00, 0x00];
    let two = [
        0x00, 0x02, 0x03, kind, 0x02, 0x03, kind, 0x02, 0x03, 0xff, 0x00, 0x00,
    ];
    print!(rt; "{kind:02x}")?;
    case(rt, " once more", &Built::by(&one))?;
    print!(rt; "{kind:02x}")?;
    case(rt, " twice more", &Built::by(&two))
}

fn repeats(rt: &impl Print) -> io::Result<()> {
    println!(rt; "-- header types that may repeat, and those that may not")?;
    for kind in (0..0x16).chain([0xfe]) {
        repeat(rt, kind)?;
    }
    Ok(())
}

fn records(rt: &impl Print) -> io::Result<()> {
    println!(rt; "-- records")?;
    cases(
        rt,
        &[
            (
                "one record",
                b"\x00\x02\x03\xff\x00\x00\x01\x10\x00\x03\x01\x00\x06\x01\x00\xff\x00\x00",
            ),
            (
                "Password, Title, UUID",
                b"\x00\x02\x03\xff\x00\x00\x06\x01\x00\x03\x01\x00\x01\x10\x00\xff\x00\x00",
            ),
            (
                "one record without END",
                b"\x00\x02\x03\xff\x00\x00\x01\x10\x00\x03\x01\x00\x06\x01\x00",
            ),
            (
                "a field after the last END",
                b"\x00\x02\x03\xff\x00\x00\x01\x10\x00\x03\x01\x00\x06\x01\x00\xff\x00\x00\x05\x01\x00",
            ),
            ("an END more", b"\x00\x02\x03\xff\x00\x00\xff\x00\x00"),
        ],
    )
}

fn more_records(rt: &impl Print) -> io::Result<()> {
    cases(
        rt,
        &[
            (
                "two records of one UUID",
                b"\x00\x02\x03\xff\x00\x00\x01\x10\x00\x03\x01\x00\x06\x01\x00\xff\x00\x00\x01\x10\x00\x03\x01\x00\x06\x01\x00\xff\x00\x00",
            ),
            (
                "two records of two UUIDs",
                b"\x00\x02\x03\xff\x00\x00\x01\x10\x00\x03\x01\x00\x06\x01\x00\xff\x00\x00\x01\x10\x01\x03\x01\x00\x06\x01\x00\xff\x00\x00",
            ),
            (
                "the UUID of the header and of a record",
                b"\x00\x02\x03\x01\x10\x00\xff\x00\x00\x01\x10\x00\x03\x01\x00\x06\x01\x00\xff\x00\x00",
            ),
            (
                "unknown and repeated types",
                b"\x00\x02\x03\xff\x00\x00\x01\x10\x00\x03\x01\x00\x06\x01\x00\x05\x02\x00\x05\x02\x00\x07\x03\x00\xfe\x01\x00\xfe\x01\x00\xff\x00\x00",
            ),
        ],
    )
}

fn mandatory(rt: &impl Print) -> io::Result<()> {
    println!(rt; "-- UUID, Title and Password")?;
    cases(
        rt,
        &[
            (
                "no UUID",
                b"\x00\x02\x03\xff\x00\x00\x03\x01\x00\x06\x01\x00\xff\x00\x00",
            ),
            (
                "no Title",
                b"\x00\x02\x03\xff\x00\x00\x01\x10\x00\x06\x01\x00\xff\x00\x00",
            ),
            (
                "no Password",
                b"\x00\x02\x03\xff\x00\x00\x01\x10\x00\x03\x01\x00\xff\x00\x00",
            ),
            (
                "two UUIDs",
                b"\x00\x02\x03\xff\x00\x00\x01\x10\x00\x01\x10\x00\x03\x01\x00\x06\x01\x00\xff\x00\x00",
            ),
            (
                "two Titles",
                b"\x00\x02\x03\xff\x00\x00\x01\x10\x00\x03\x01\x00\x03\x01\x00\x06\x01\x00\xff\x00\x00",
            ),
            (
                "two Passwords",
                b"\x00\x02\x03\xff\x00\x00\x01\x10\x00\x03\x01\x00\x06\x01\x00\x06\x01\x00\xff\x00\x00",
            ),
        ],
    )
}

fn sizes(rt: &impl Print) -> io::Result<()> {
    cases(
        rt,
        &[
            (
                "UUID of 15 bytes",
                b"\x00\x02\x03\xff\x00\x00\x01\x0f\x00\x03\x01\x00\x06\x01\x00\xff\x00\x00",
            ),
            (
                "UUID of 17 bytes",
                b"\x00\x02\x03\xff\x00\x00\x01\x11\x00\x03\x01\x00\x06\x01\x00\xff\x00\x00",
            ),
            (
                "empty Title",
                b"\x00\x02\x03\xff\x00\x00\x01\x10\x00\x03\x00\x00\x06\x01\x00\xff\x00\x00",
            ),
            (
                "empty Password",
                b"\x00\x02\x03\xff\x00\x00\x01\x10\x00\x03\x01\x00\x06\x00\x00\xff\x00\x00",
            ),
            (
                "second record without Title",
                b"\x00\x02\x03\xff\x00\x00\x01\x10\x00\x03\x01\x00\x06\x01\x00\xff\x00\x00\x01\x10\x00\x06\x01\x00\xff\x00\x00",
            ),
        ],
    )
}

// Searched for the UUID whose bytes are 61 but for the second.
fn sought(rt: &impl Print, name: &str, script: &[u8], second: u8) -> io::Result<()> {
    let uuid = Uuid {
        low: 0x6161616161610061 + 256 * u64::from(second),
        high: 0x6161616161616161,
    };
    let found = body::find(Built::by(script).body(), uuid);
    print!(rt; "{name}: ")?;
    match found.sought {
        Ok(Some(Place { number, place })) => print!(rt; "record {number} at {place}")?,
        Ok(None) => print!(rt; "none")?,
        Err(refusal) => print!(rt; "{}", u32::from(refusal))?,
    }
    println!(rt; ", fields visited: {}", found.visited)
}

fn finds(rt: &impl Print) -> io::Result<()> {
    println!(rt; "-- find")?;
    sought(
        rt,
        "first of two records",
        b"\x00\x02\x03\xff\x00\x00\x01\x10\x01\x03\x01\x00\x06\x01\x00\xff\x00\x00\x03\x01\x00\x06\x01\x00\x01\x10\x02\xff\x00\x00",
        1,
    )?;
    sought(
        rt,
        "second of two records",
        b"\x00\x02\x03\xff\x00\x00\x01\x10\x01\x03\x01\x00\x06\x01\x00\xff\x00\x00\x03\x01\x00\x06\x01\x00\x01\x10\x02\xff\x00\x00",
        2,
    )?;
    sought(
        rt,
        "no such record",
        b"\x00\x02\x03\xff\x00\x00\x01\x10\x01\x03\x01\x00\x06\x01\x00\xff\x00\x00\x03\x01\x00\x06\x01\x00\x01\x10\x02\xff\x00\x00",
        3,
    )?;
    sought(
        rt,
        "the UUID twice",
        b"\x00\x02\x03\xff\x00\x00\x01\x10\x01\x03\x01\x00\x06\x01\x00\xff\x00\x00\x01\x10\x01\x03\x01\x00\x06\x01\x00\xff\x00\x00",
        1,
    )?;
    sought(
        rt,
        "the UUID in the header only",
        b"\x00\x02\x03\x01\x10\x01\xff\x00\x00",
        1,
    )?;
    sought(
        rt,
        "the UUID in a body that is not well formed",
        b"\x00\x02\x03\xff\x00\x00\x01\x10\x01\x03\x01\x00\xff\x00\x00",
        1,
    )
}

fn main(rt: HostRuntime) -> io::Result<()> {
    headers(&rt)?;
    bytes(&rt)?;
    more_bytes(&rt)?;
    huge(&rt)?;
    repeats(&rt)?;
    records(&rt)?;
    more_records(&rt)?;
    mandatory(&rt)?;
    sizes(&rt)?;
    finds(&rt)
}
