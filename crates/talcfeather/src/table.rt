// The login table of a body, and a table taken back.
ghost use Rattle.rows.specs.Answers.{import_number, import_numbers, row_number, row_numbers};
ghost use Rattle.logins.specs.Answers.{export_number, export_numbers};
ghost use Rattle.talcfeather.specs.Table.{TalcExport, TalcImport, TalcRow};

use super::answer::{Answer, number, told};
use logins::ExportRefusal;
use rows::{RowRefusal, Values};

impl Answer<3> for Result<usize, ExportRefusal> {
    ghost number_of = { export_number };

    ghost numbers_of = { export_numbers };

    fn number(&self) -> u32 {
        number(self)
    }

    fn numbers(&self) -> [u64; 3] {
        logins::answers::export_numbers(*self)
    }
}

impl Answer<2> for Result<usize, RowRefusal> {
    ghost number_of = { import_number };

    ghost numbers_of = { import_numbers };

    fn number(&self) -> u32 {
        number(self)
    }

    fn numbers(&self) -> [u64; 2] {
        rows::answers::import_numbers(*self)
    }
}

impl Answer<7> for Result<Option<Values>, RowRefusal> {
    ghost number_of = { row_number };

    ghost numbers_of = { row_numbers };

    fn number(&self) -> u32 {
        number(self)
    }

    fn numbers(&self) -> [u64; 7] {
        rows::answers::row_numbers(*self)
    }
}

#[unsafe(no_mangle)]
pub extern "C" fn talc_export(
    body: &[u8],
    time: u32,
    output: &mut [u8],
    answer: &mut [u8; 24],
) -> u32
    ensures { TalcExport body.now time output.old result output.new answer.new }
{
    told(&logins::export(body, time, output), answer)
}

#[unsafe(no_mangle)]
pub extern "C" fn talc_import(table: &[u8], answer: &mut [u8; 16]) -> u32
    ensures { TalcImport table.now result answer.new }
{
    told(&rows::import(table), answer)
}

#[unsafe(no_mangle)]
pub extern "C" fn talc_row(table: &[u8], number: usize, answer: &mut [u8; 56]) -> u32
    ensures { TalcRow table.now number result answer.new }
{
    told(&rows::row(table, number), answer)
}
