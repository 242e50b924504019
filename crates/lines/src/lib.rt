// The queues of a product as text: a line of eight bytes for each, by ascending queue.
//
// Rests on digits, mask, rules and product.
#![tactic(auto)]

ghost use Rattle.std.specs.Prelude.{◌+◌, ◌≤◌, ◌≡◌, length};
ghost use Rattle.rules.specs.State.{apqn};
ghost use Rattle.product.specs.Meet.{queues_of};
ghost use Rattle.lines.specs.Lines.{line_size, line_of, with_line};
ghost use Rattle.lines.specs.Written.{Written};

use mask::Apqn;
use product::Product;
use rules::QUEUES;

// The bytes of a line.
pub const LINE: usize = 8;

// How many bytes were written, and the next place.
#[derive(Clone, Copy)]
pub struct Filled {
    pub written: usize,
    pub next: usize,
}

// Writes the lines of the queues at or after a place, as many whole lines as fit into the buffer.
pub fn write(product: Product, place: usize, buf: &mut [u8]) -> Filled
    ensures { Written (queues_of product) place buf.old buf.new result.written result.next }
{
    let mut at = 0;
    let mut next = place;
    for n in place..QUEUES {
        let queue = Apqn::new((n / 256) as u8, (n % 256) as u8);
        if product.has(queue) {
            if buf.len() - at < LINE {
                return Filled { written: at, next };
            }
            put_line(buf, at, queue);
            at += LINE;
            next = n + 1;
        }
    }
    Filled {
        written: at,
        next: QUEUES,
    }
}

// Writes the line of a queue at an index of the buffer.
fn put_line(buf: &mut [u8], at: usize, queue: Apqn)
    requires { at + line_size ≤ length buf.old }
    ensures { buf.new ≡ with_line buf.old at (apqn queue.adapter queue.domain) }
{
    buf[at..at + LINE].copy_from_slice(&line(queue));
}

fn line(queue: Apqn) -> [u8; LINE]
    ensures { result ≡ line_of (apqn queue.adapter queue.domain) }
{
    let a = queue.adapter.0;
    let d = queue.domain.0;
    [
        digits::hex_digit(a / 16),
        digits::hex_digit(a),
        b'.',
        b'0',
        b'0',
        digits::hex_digit(d / 16),
        digits::hex_digit(d),
        b'\n',
    ]
}
