// The answers of the plain forms as numbers: 0 or more, or minus a refusal number.
ghost use Rattle.std.specs.Prelude.{◌≡◌, ◌≤◌, pos};
ghost use Rattle.packed.specs.Step.{flag};
ghost use Rattle.line.specs.Event.{number_of, answered};
ghost use Rattle.line.specs.Slots.{slotted};
ghost use Rattle.card.specs.Card.{carded};
ghost use Rattle.search.specs.Search.{searched};
ghost use Rattle.toemsakun.specs.Library.{minus, answer_number, slots_number, search_number};
ghost use Rattle.toemsakun.specs.Answers.{card_number, card_offset, slots_put};

use card::Refused;
use line::Refusal;
use search::Fault;

// A bus bit.
// Stays with numbers, a function for each of four answers: the C interface has them, and each has its definition in specs/.
fn of_bit(b: bool) -> i32
    ensures { result ≡ pos (flag b) }
{
    i32::from(b)
}

// A count.
fn of_count(n: usize) -> i32
    requires { n ≤ 65535 }
    ensures { result ≡ pos n }
{
    n as i32
}

// Minus a number.
fn minus_of(number: u8) -> i32
    ensures { result ≡ minus number }
{
    -i32::from(number)
}

// Minus the number of a refusal.
fn of_refusal(r: Refusal) -> i32
    ensures { result ≡ minus (number_of r) }
{
    minus_of(line::number_of(r))
}

// What an event answers.
pub fn of_event(answer: Result<bool, Refusal>) -> i32
    ensures { result ≡ answer_number (answered answer) }
{
    match answer {
        Ok(b) => of_bit(b),
        Err(r) => of_refusal(r),
    }
}

// What a run of slots answers, of at most as many slots as a run has.
pub fn of_slots(answer: Result<usize, Refusal>) -> i32
    requires { slots_put answer ≤ 65535 }
    ensures { result ≡ slots_number (slotted answer) }
{
    match answer {
        Ok(n) => of_count(n),
        Err(r) => of_refusal(r),
    }
}

// What a search answers that listed n codes.
pub fn of_search(answer: Result<(), Fault>, n: usize) -> i32
    requires { n ≤ 16 }
    ensures { result ≡ search_number n (searched answer) }
{
    match answer {
        Ok(()) => of_count(n),
        Err(_) => minus_of(search::number_of(answer)),
    }
}

// What set-up answers that left n chips.
pub fn of_card(answer: Result<usize, Refused>, n: usize) -> i32
    requires { n ≤ 16 }
    ensures { result ≡ card_number n (carded answer) }
{
    match answer {
        Ok(_) => of_count(n),
        Err(refused) => minus_of(u8::from(refused.fault)),
    }
}

// Where the record at fault begins, 0 where there is none.
pub fn offset_of(answer: Result<usize, Refused>) -> usize
    ensures { result ≡ card_offset (carded answer) }
{
    match answer {
        Ok(_) => 0,
        Err(refused) => refused.at,
    }
}
