// The C interface to the console's lines. include/zokormendu.h has the declaration.
//
// Rests on errno, layout, served, answerline, linetext and consoleline.
#![tactic(auto)]

ghost use Rattle.c_line.specs.Served.{LineServes};

use answerline::LONGEST;
use errno::Errno;
use layout::{Drivers, Words};

// Carries out a line, which comes without its newline, and writes its answer line, newline included.
#[unsafe(no_mangle)]
pub extern "C" fn zk_raw_line(
    words: &mut Words,
    drivers: &mut Drivers,
    line: &[u8],
    out: &mut [u8],
    written: &mut usize,
) -> u8
    ensures { LineServes line.entry words drivers out written result }
{
    if out.len() < LONGEST {
        return u8::from(Errno::Enospc);
    }
    let said = consoleline::obey(words, drivers, line);
    *written = answerline::put(out, 0, said);
    0
}
