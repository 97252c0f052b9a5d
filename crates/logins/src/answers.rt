// The numbers of an answer, none of which C has as an Option: talc_export, clause TalcExport.
ghost use Rattle.std.specs.Prelude.{◌≡◌};
ghost use Rattle.logins.specs.Answers.{export_numbers};

use crate::ExportRefusal;

pub fn export_numbers(r: Result<usize, ExportRefusal>) -> [u64; 3]
    ensures { result ≡ export_numbers r }
{
    match r {
        Ok(count) => [count as u64, 0, 0],
        Err(ExportRefusal::Faulty(fault)) => [0, fault.number as u64, u64::from(fault.kind)],
        Err(_) => [0; 3],
    }
}
