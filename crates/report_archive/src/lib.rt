// The entries of `report_c` as an archive for C: each calls the function of its name there, and promises the same.
#![tactic(auto)]

ghost use Rattle.std.specs.Prelude.{◌≡◌, ◌++◌, ◌≤◌, length, take, drop};
ghost use Rattle.totals.specs.Totals.{totals_of};
ghost use Rattle.rooms.specs.Rooms.{LeavesRoom};
ghost use Rattle.report_c.specs.Entries.{totals_size, totals_bytes, totals_in, starting, counting, known_full, texting, lining};

// Writes the totals of a new report.
#[unsafe(no_mangle)]
pub extern "C" fn report_start(totals: &mut [u8]) -> u32
    ensures { LeavesRoom (starting totals.old) result totals.new }
{
    report_c::report_start(totals)
}

// Counts the first message of a run, as it is before the lent station is given it; where a total is full, its place is told.
#[unsafe(no_mangle)]
pub extern "C" fn report_message(totals: &mut [u8], station: &[u8], message: &[u8]) -> u32
    ensures { LeavesRoom (counting totals.old station.now message.now) result totals.new }
{
    report_c::report_message(totals, station, message)
}

// The report's text: one line for each total in force, or the name of the one that is full.
#[unsafe(no_mangle)]
pub extern "C" fn report_lines(totals: &[u8], full: u8, out: &mut [u8]) -> u32
    ensures { LeavesRoom (lining totals.now full out.old) result out.new }
{
    report_c::report_lines(totals, full, out)
}
