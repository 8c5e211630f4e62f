// A text read line by line into an image.
ghost use Rattle.std.specs.Prelude.{◌≡◌, ◌≤◌, length};
ghost use Rattle.intelhex.specs.Faults.{image_size};
ghost use Rattle.intelhex.specs.Lines.{standing, form_of, judged};
ghost use Rattle.intelhex.specs.Reading.{next_by, next_in, next_of, next_after, next, stop, ends_at, blank, lines_of, went, went_by, read_lines, read, read_by, read_text};
ghost use Rattle.intelhex.specs.Turns.{turned, turned_by};

use crate::lines::Standing;
use crate::record::Judged;
use crate::{Ending, Fault, IMAGE_SIZE, Refused, Taken, lines, record, storing};

// What a turn comes to.
// Stays an enum: an `Option` in place of `Stop` would not say that the text ends there, and so be no plainer.
#[derive(Clone, Copy)]
pub enum Turn {
    // a record was taken: the characters that it takes up, and whether it was the end record
    On { size: usize, over: bool },
    Stop(Ending),
}

// The most bytes of a record: 255 data bytes and five more.
const RECORD_MOST: usize = 260;

// An image of FFh, with which reading begins.
pub fn blank_image() -> [u8; IMAGE_SIZE]
    ensures value { result ≡ blank }
    ensures image_size_value { image_size ≡ length result }
{
    [0xFF; IMAGE_SIZE]
}

// A record's turn: what a data record gives is put into the image.
fn take_record(bytes: &[u8], size: usize, image: &mut [u8]) -> Result<Turn, Fault>
    ensures { turned result image.new ≡ turned_by image.old (next_by size bytes.now (judged bytes.now)) }
{
    match record::judge(bytes)? {
        Judged::Data { address, count } => {
            let end = (count as usize) + 4;
            storing::put_bytes(&bytes[4..end], image, address as usize);
            Ok(Turn::On { size, over: false })
        }
        Judged::End => Ok(Turn::On { size, over: true }),
    }
}

// A line's turn. Its bytes stand in room that all lines share: zeros for each line take a tenth of a run where lines are short.
fn take_line(line: &[u8], size: usize, bytes: &mut [u8], image: &mut [u8]) -> Result<Turn, Fault>
    requires { (length line.now ≤ 522) × (length bytes.old ≡ 260) }
    ensures { turned result image.new ≡ turned_by image.old (next_in size line.now (form_of line.now)) }
{
    let n = record::form_of(line)?;
    record::decode(&line[1..], bytes);
    take_record(&bytes[..n], size, image)
}

// Where the text ends: more may come, or it is a fault.
#[tactic(auto, unfolding(base::specs::Pick::pick))]
fn awaited(more: bool, fault: Fault) -> Result<Ending, Fault>
    ensures { result ≡ ends_at more (Err fault) }
{
    if more { Ok(Ending::Part) } else { Err(fault) }
}

// The turn of a text before its end record.
fn take_before(text: &[u8], more: bool, bytes: &mut [u8], image: &mut [u8]) -> Result<Turn, Fault>
    requires { length bytes.old ≡ 260 }
    ensures { turned result image.new ≡ turned_by image.old (next_of more text.now (standing text.now)) }
{
    match lines::standing_in(text) {
        Standing::Nothing => Ok(Turn::Stop(awaited(more, Fault::NoEndRecord)?)),
        Standing::Unended => Ok(Turn::Stop(awaited(more, Fault::NoLineEnd)?)),
        Standing::Endless => Err(Fault::TooLong),
        Standing::Line { characters, size } => take_line(&text[..characters], size, bytes, image),
    }
}

// How a text after its end record ends.
#[tactic(auto, unfolding(crate::specs::Reading::next_after, base::specs::Pick::pick))]
fn end_after(text: &[u8], more: bool) -> Result<Ending, Fault>
    ensures { stop result ≡ next_after more text.now }
{
    if text.len() != 0 {
        return Err(Fault::AfterEnd);
    }
    if more {
        return Ok(Ending::Part);
    }
    Ok(Ending::End)
}

// The turn of a text.
fn take_next(
    over: bool,
    text: &[u8],
    more: bool,
    bytes: &mut [u8],
    image: &mut [u8],
) -> Result<Turn, Fault>
    requires { length bytes.old ≡ 260 }
    ensures { turned result image.new ≡ turned_by image.old (next over more text.now) }
{
    if over {
        return Ok(Turn::Stop(end_after(text, more)?));
    }
    take_before(text, more, bytes, image)
}

// All lines of what is there of a text, put into an image.
// Stays a loop with a place in the text: each line says how long it is, and the place and the number of lines are part of the answer.
fn read_all(over: bool, text: &[u8], more: bool, image: &mut [u8]) -> Taken
    ensures { went result.ending result.at result.lines result.over image.new ≡ went_by image.old (lines_of more over text.now) }
{
    let mut bytes = [0u8; RECORD_MOST];
    let mut at: usize = 0;
    let mut lines: usize = 0;
    let mut past = over;
    loop {
        match take_next(past, &text[at..], more, &mut bytes, image) {
            Ok(Turn::On { size, over }) => {
                at += size;
                lines += 1;
                past = over;
            }
            Ok(Turn::Stop(end)) => return Taken {
                ending: Ok(end),
                at,
                lines,
                over: past,
            },
            Err(fault) => return Taken {
                ending: Err(fault),
                at,
                lines,
                over: past,
            },
        }
    }
}

// Reads all lines of what is there of a text, after its end record or not, and puts what they give into the image under way; more of the text may come or not. 5 for an
// image of another size, with nothing changed. The first fault ends it, before the line at fault.
pub fn read_lines(over: bool, text: &[u8], more: bool, image: &mut [u8]) -> Taken
    ensures { went result.ending result.at result.lines result.over image.new ≡ read_lines over more text.now image.old }
{
    let Some(image) = image.as_mut_array::<IMAGE_SIZE>() else {
        return Taken {
            ending: Err(Fault::WrongSize),
            at: 0,
            lines: 0,
            over,
        };
    };
    read_all(over, text, more, image)
}

// What reading a whole text answers; the image that was made is handed over where it ended well.
fn hand_over(
    ending: Result<Ending, Fault>,
    lines: usize,
    made: &[u8; IMAGE_SIZE],
    image: &mut [u8; IMAGE_SIZE],
) -> Result<(), Refused>
    ensures { read result image.new ≡ read_by image.old made.now lines ending }
{
    match ending {
        Ok(Ending::End) => {
            *image = *made;
            Ok(())
        }
        Ok(Ending::Part) => Err(Refused {
            fault: Fault::NoEndRecord,
            lines,
        }),
        Err(fault) => Err(Refused { fault, lines }),
    }
}

// Reads a whole text. 5 for an image of another size; a refusal leaves the image as found.
pub fn read_text(text: &[u8], image: &mut [u8]) -> Result<(), Refused>
    ensures { read result image.new ≡ read_text text.now image.old }
{
    let Some(image) = image.as_mut_array::<IMAGE_SIZE>() else {
        return Err(Refused {
            fault: Fault::WrongSize,
            lines: 0,
        });
    };
    let mut made = blank_image();
    let taken = read_all(false, text, false, &mut made);
    hand_over(taken.ending, taken.lines, &made, image)
}
