// The lines that the desk program writes, into a lent buffer. A store past the buffer's end changes nothing, and what is past the line stays: no `fmt::Write` of `std`
// writes so, so there is no `Display`.
ghost use Rattle.std.specs.Prelude.{◌≡◌, ◌+◌, ◌≤◌, ◌<◌, ◌++◌, ◌∷◌, [], length, map, set};
ghost use Rattle.desk_lines.specs.Line.{codes, digits, decimal, spaced, text_of};
ghost use Rattle.desk_lines.specs.Written.{Wrote};

// A line but for its text: each starts with the place of its call, the opening being 0. A refusal is the number that the line shows, by which `text_of` names it.
#[derive(Clone, Copy)]
pub enum Line {
    Opened {
        vertices: u32,
        roads: u32,
        parts: u32,
    },
    Ok {
        place: u32,
        stamp: u32,
    },
    No {
        place: u32,
        number: u32,
    },
    Length {
        place: u32,
        length: u32,
    },
    Van {
        place: u32,
        number: u32,
        distance: u32,
        stamp: u32,
    },
    Bad {
        place: u32,
    },
    End {
        place: u32,
    },
}

// No struct holds the buffer and the place in it: each of its methods would have to ensure that it holds the same `&mut` still. That a place is far below the largest
// number is a clause of each function: lengths are added to it.

fn put_byte(out: &mut [u8], at: usize, b: u8)
    ensures { out.new ≡ set out.old at b }
{
    if at < out.len() {
        out[at] = b;
    }
}

// The codes of a text.
fn put_text(out: &mut [u8], at: usize, text: &[u8]) -> usize
    requires { (at < 1099511627776) × (length text.now ≤ 16) }
    ensures { Wrote out.old at text.now result out.new }
{
    for (i, b) in text.iter().enumerate() {
        put_byte(out, at + i, *b);
    }
    at + text.len()
}

// A number in decimal, of at most `most` digits.
fn put_digits(out: &mut [u8], at: usize, value: u32, most: u32) -> usize
    requires { at < 1099511627776 }
    ensures { Wrote out.old at (digits most value) result out.new }
{
    if most == 0 {
        return at;
    }
    if value < 10 {
        put_byte(out, at, b'0' + value as u8);
        return at + 1;
    }
    let next = put_digits(out, at, value / 10, most - 1);
    put_byte(out, next, b'0' + (value % 10) as u8);
    next + 1
}

// Numbers with a space before each, and the end of the line.
fn put_numbers(out: &mut [u8], at: usize, numbers: &[u32]) -> usize
    requires { (at < 4294967000) × (length numbers.now ≤ 3) }
    ensures { Wrote out.old at (spaced (map decimal numbers.now)) result out.new }
{
    let mut end = at;
    for number in numbers {
        put_byte(out, end, b' ');
        end = put_digits(out, end + 1, *number, 10);
    }
    put_byte(out, end, b'\n');
    end + 1
}

// A line that starts with its place: a name after it, and numbers.
fn put_line(out: &mut [u8], at: usize, place: u32, name: &[u8], numbers: &[u32]) -> usize
    requires { (at < 4294960000) × (length name.now ≤ 16) × (length numbers.now ≤ 3) }
    ensures { Wrote out.old at (decimal place ++ name.now ++ spaced (map decimal numbers.now)) result out.new }
{
    let placed = put_digits(out, at, place, 10);
    let named = put_text(out, placed, name);
    put_numbers(out, named, numbers)
}

// The last line.
fn put_last(out: &mut [u8], at: usize, place: u32) -> usize
    requires { at < 4294960000 }
    ensures { Wrote out.old at (codes "end" ++ spaced (map decimal (place ∷ []))) result out.new }
{
    let named = put_text(out, at, b"end");
    put_numbers(out, named, &[place])
}

// The line's text, from `at` on; where it ends.
pub fn write_line(out: &mut [u8], at: usize, line: Line) -> usize
    requires { at < 4294960000 }
    ensures { Wrote out.old at (text_of line) result out.new }
{
    match line {
        Line::Opened {
            vertices,
            roads,
            parts,
        } => put_line(out, at, 0, b" open", &[vertices, roads, parts]),
        Line::Ok { place, stamp } => put_line(out, at, place, b" ok", &[stamp]),
        Line::No { place, number } => put_line(out, at, place, b" no", &[number]),
        Line::Length { place, length } => put_line(out, at, place, b" list", &[length]),
        Line::Van {
            place,
            number,
            distance,
            stamp,
        } => put_line(out, at, place, b" van", &[number, distance, stamp]),
        Line::Bad { place } => put_line(out, at, place, b" bad", &[]),
        Line::End { place } => put_last(out, at, place),
    }
}
