// Carries out a line of the console, by the functions that a caller would call.
//
// Rests on errno, mask, rules, model, layout, encoding, configure, bind, sweep, calls, request, run, served, split, configtext,
// answerline, linewords and linetext.
#![tactic(auto)]

ghost use Rattle.std.specs.Prelude.{◌≡◌};
ghost use Rattle.errno.specs.Outcome.{granted};
ghost use Rattle.rules.specs.Queues.{most_moves};
ghost use Rattle.rules.specs.Commands.{answered};
ghost use Rattle.encoding.specs.Encoding.{command, move, sweep};
ghost use Rattle.encoding.specs.Meant.{meant};
ghost use Rattle.split.specs.Cut.{cut};
ghost use Rattle.answerline.specs.Answers.{command_line, said_line};
ghost use Rattle.linewords.specs.Requests.{for_config};
ghost use Rattle.linewords.specs.Asked.{asked};
ghost use Rattle.linetext.specs.Lines.{piece_request, line_request};
ghost use Rattle.consoleline.specs.Answering.{Answers};

use answerline::Said;
use encoding::Command;
use errno::Errno;
use layout::{Drivers, Words};
use linewords::Request;
use mask::Apqn;
use rules::Answer;

// A line without its newline. One that holds a newline is bad text.
pub fn obey(words: &mut Words, drivers: &mut Drivers, line: &[u8]) -> Said
    ensures { Answers (line_request line.now) words drivers result }
{
    carry_out(words, drivers, linetext::read_line(line))
}

// A piece of an input between newlines.
pub fn obey_piece(words: &mut Words, drivers: &mut Drivers, line: &[u8]) -> Said
    ensures { Answers (piece_request line.now) words drivers result }
{
    carry_out(words, drivers, linetext::read(line))
}

// What was read of a line.
pub fn carry_out(words: &mut Words, drivers: &mut Drivers, read: Result<Request, Errno>) -> Said
    ensures { Answers (asked read.entry) words drivers result }
{
    match read {
        Ok(Request::Command(c)) => command(words, drivers, c),
        Ok(Request::Config(text)) => configure(words, drivers, text),
        Ok(Request::Move(queue)) => make_move(words, drivers, queue),
        Ok(Request::Sweep) => make_sweep(words, drivers),
        Err(e) => Said::Refused(e),
    }
}

fn command(words: &mut Words, drivers: &mut Drivers, asked: Command) -> Said
    ensures { Answers (granted (command (meant asked.entry))) words drivers result }
{
    said(request::command(words, drivers, asked))
}

fn configure(words: &mut Words, drivers: &mut Drivers, text: &[u8]) -> Said
    ensures { Answers (for_config (cut 32 text.now)) words drivers result }
{
    match configtext::read(text) {
        Ok(configuration) => said(configure::configure(words, drivers, configuration)),
        Err(e) => Said::Refused(e),
    }
}

fn make_move(words: &mut Words, drivers: &mut Drivers, queue: Apqn) -> Said
    ensures { Answers (granted (move queue.adapter.0 queue.domain.0)) words drivers result }
{
    Said::Did(bind::move_queue(words, drivers, queue))
}

// A sweep with the full budget.
fn make_sweep(words: &mut Words, drivers: &mut Drivers) -> Said
    ensures { Answers (granted (sweep most_moves)) words drivers result }
{
    let swept = sweep::sweep(words, drivers, sweep::MOST_MOVES);
    Said::Used(swept.used)
}

fn said(answer: Answer) -> Said
    ensures { said_line result ≡ command_line (answered answer) }
{
    match answer {
        Ok(()) => Said::Done,
        Err(errno) => Said::Refused(errno),
    }
}
