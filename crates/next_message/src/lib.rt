// The next message in a row of bits, word by word.
#![tactic(auto)]

ghost use Rattle.std.specs.Prelude.{◌≡◌, ◌<◌, ◌≤◌, length};
ghost use Rattle.model.specs.Limits.{messages_most};
ghost use Rattle.relation.specs.Width.{width};
ghost use Rattle.next_message.specs.Next.{next_in};

use relation::{WIDTH, WORD_BITS};

// The lowest message from m on with a bit in the row, its send's or its receive's; where there is none, the most messages.
pub fn next_in(row: &[u64], m: usize) -> usize
    requires { (m < messages_most) × (width ≤ length row.now) }
    ensures { result ≡ next_in row.now m }
{
    let send = 2 * m;
    let at = send / WORD_BITS;
    let rest = row[at] >> (send % WORD_BITS);
    if rest != 0 {
        return m + rest.trailing_zeros() as usize / 2;
    }
    for i in at + 1..WIDTH {
        let word = row[i];
        if word != 0 {
            return (WORD_BITS * i + word.trailing_zeros() as usize) / 2;
        }
    }
    model::MESSAGES_MOST
}
