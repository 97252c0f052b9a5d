// What is kept of the section that a pass over a body is in, the header or a record.
ghost use Rattle.std.specs.Prelude.{◌≡◌, ◌+◌, ◌^◌, ◌<◌};
ghost use Rattle.words.specs.Members.{among};
ghost use Rattle.body.specs.Tally.{once, length_fits, is_marked, with_mark, empty_section, noted, passes, start, tallied, finished};

use super::{Counts, NotWellFormed};
use fields::Taken;

// Whether it is a record or the header, which of the types that may occur once were seen, a bit for each (13 is the highest),
// whether all is right so far, and whether it has a field.
// A fault is told at the end: `sections_of` (specs/Tally.antt) is one test of all sections, and so is what a turn keeps.
#[derive(Clone, Copy)]
pub struct Section {
    pub in_record: bool,
    pub seen: u32,
    pub fine: bool,
    pub used: bool,
}

// The section that a pass is in, and what it has counted.
#[derive(Clone, Copy)]
pub struct Tally {
    pub section: Section,
    pub counts: Counts,
}

fn is_marked(seen: u32, kind: u8) -> bool
    requires { kind < 20 }
    ensures { result ≡ is_marked seen kind }
{
    (seen >> kind) % 2 == 1
}

fn with_mark(seen: u32, kind: u8) -> u32
    requires { kind < 20 }
    ensures { result ≡ with_mark seen kind }
{
    seen | 1 << kind
}

impl Section {
    fn empty(in_record: bool, fine: bool) -> Section
        ensures { result ≡ empty_section in_record fine }
    {
        Section {
            in_record,
            seen: 0,
            fine,
            used: false,
        }
    }

    // Whether a type may occur only once.
    #[tactic(auto, using(crate::proofs::OnceTypes::header_once, crate::proofs::OnceTypes::record_once))]
    fn only_once(self, kind: u8) -> bool
        ensures { result ≡ among kind (once self.in_record) }
    {
        if self.in_record {
            matches!(kind, 0x01 | 0x03 | 0x06)
        } else {
            matches!(kind, 0x00..=0x0b | 0x0f | 0x10 | 0x13)
        }
    }

    // Whether a record's UUID has 16 bytes, and its Title and Password are not empty.
    #[tactic(auto, unfolding(crate::specs::Tally::length_fits))]
    fn length_fits(self, field: Taken) -> bool
        ensures { result ≡ length_fits self.in_record field.kind field.len }
    {
        match (self.in_record, field.kind) {
            (true, 0x01) => field.len == 16,
            (true, 0x03 | 0x06) => 1 <= field.len,
            _ => true,
        }
    }

    // The section with one field more.
    #[tactic(auto, using(crate::proofs::Sums::small))]
    fn noted(self, field: Taken) -> Section
        ensures { result ≡ noted self field.kind field.len }
    {
        let fine = self.fine && self.length_fits(field);
        if self.only_once(field.kind) {
            Section {
                seen: with_mark(self.seen, field.kind),
                fine: fine && !is_marked(self.seen, field.kind),
                used: true,
                ..self
            }
        } else {
            Section {
                fine,
                used: true,
                ..self
            }
        }
    }

    // Whether the section may end here.
    fn may_end(self) -> bool
        ensures { result ≡ passes self }
    {
        self.fine
            && (!self.in_record
                || is_marked(self.seen, 1) && is_marked(self.seen, 3) && is_marked(self.seen, 6))
    }
}

impl Tally {
    pub fn start() -> Tally
        ensures { result ≡ start }
    {
        Tally {
            section: Section::empty(false, true),
            counts: Counts::default(),
        }
    }

    // One field more. An END ends the section, and a record follows; the END of a record counts it, and any other field of the header counts.
    pub fn after(self, field: Taken) -> Tally
        requires headers { self.counts.headers + 1 < 2 ^ 64 }
        requires records { self.counts.records + 1 < 2 ^ 64 }
        ensures { result ≡ tallied self field.kind field.len }
    {
        let Tally { section, counts } = self;
        if field.kind == 0xff {
            Tally {
                section: Section::empty(true, section.may_end()),
                counts: Counts {
                    records: counts.records + usize::from(section.in_record),
                    ..counts
                },
            }
        } else {
            Tally {
                section: section.noted(field),
                counts: Counts {
                    headers: counts.headers + usize::from(!section.in_record),
                    ..counts
                },
            }
        }
    }

    // The counts, where all is right and nothing follows the last END.
    pub fn finish(self) -> Result<Counts, NotWellFormed>
        ensures { result ≡ finished self }
    {
        let Tally { section, counts } = self;
        if section.in_record && section.fine && !section.used {
            Ok(counts)
        } else {
            Err(NotWellFormed)
        }
    }
}
