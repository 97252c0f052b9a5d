// One record of a body: where the next one starts, how many fields it has, and the first field of each type that others ask for.
ghost use Rattle.std.specs.Prelude.{◌≡◌};
ghost use Rattle.body.specs.RecordAt.{record_at, content_at};
ghost use Rattle.body.specs.Tally.{or_if, firsts_with};

use fields::Cursor;

// The place of a field's data, and their length.
#[derive(Clone, Copy, Debug, PartialEq, Eq)]
pub struct Spot {
    pub place: usize,
    pub len: usize,
}

// The first field of types 01, 02, 03, 04 and 0a.
#[derive(Clone, Copy, Default)]
pub struct Firsts {
    pub uuid: Option<Spot>,
    pub group: Option<Spot>,
    pub title: Option<Spot>,
    pub user: Option<Spot>,
    pub expiry: Option<Spot>,
}

// The place behind a record's END, the number of its fields, and the first of some types.
#[derive(Clone, Copy)]
pub struct Record {
    pub next: usize,
    pub fields: usize,
    pub firsts: Firsts,
}

impl Firsts {
    // One field more, with its data at this spot.
    fn with(self, kind: u8, spot: Spot) -> Firsts
        ensures { result ≡ firsts_with self kind spot }
    {
        match kind {
            0x01 => Firsts {
                uuid: self.uuid.or(Some(spot)),
                ..self
            },
            0x02 => Firsts {
                group: self.group.or(Some(spot)),
                ..self
            },
            0x03 => Firsts {
                title: self.title.or(Some(spot)),
                ..self
            },
            0x04 => Firsts {
                user: self.user.or(Some(spot)),
                ..self
            },
            0x0a => Firsts {
                expiry: self.expiry.or(Some(spot)),
                ..self
            },
            _ => self,
        }
    }
}

// The record at a place, of any bytes: it goes to the first END, or else to where the walk takes no field.
pub fn record_at(body: &[u8], at: usize) -> Record
    ensures { result ≡ record_at body.now at }
{
    let mut c = Cursor {
        place: at,
        in_record: true,
    };
    let mut n: usize = 0;
    let mut firsts = Firsts::default();
    while let Ok(Some(field)) = fields::step(body, c) {
        if field.kind == 0xff {
            c = field.next;
            break;
        }
        let spot = Spot {
            place: c.place + 5,
            len: field.len,
        };
        firsts = firsts.with(field.kind, spot);
        n += 1;
        c = field.next;
    }
    Record {
        next: c.place,
        fields: n,
        firsts,
    }
}

// What stands at a spot, as far as the body goes.
pub fn content(body: &[u8], spot: Option<Spot>) -> &[u8]
    ensures { result.now ≡ content_at body.now spot }
{
    let Some(Spot { place, len }) = spot else {
        return &[];
    };
    let rest = &body[place.min(body.len())..];
    &rest[..len.min(rest.len())]
}
