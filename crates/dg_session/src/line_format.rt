//! Which seat a line belongs to.
ghost use Rattle.std.specs.Prelude.{◌≡◌, ◌<◌, ◌≤◌, None, IfSome};
ghost use Rattle.dg_session.specs.State.{IsFor, IsForNobody};

use dg_lines::split_seat;

/// How the lines of a session name the seat that makes their calls.
#[derive(Clone, Copy)]
pub enum LineFormat {
    /// They do not: each line is a command of the first seat.
    OneSeat,
    /// Each line is a seat, by its place from 1, one space, and a command.
    BySeat,
}

/// The place of the seat that a line is for, from 0, and the command line for it. `None` if the line is for no seat.
pub(crate) fn addressed_seat(how: LineFormat, count: usize, line: &[u8]) -> Option<(usize, &[u8])>
    requires { 1 ≤ count }
    ensures one { IfSome result (λ p. IsFor how count line.now p.0 p.1.now) }
    ensures there { IfSome result (λ p. p.0 < count) }
    ensures none { result ≡ None → IsForNobody how count line.now }
{
    match how {
        LineFormat::OneSeat => Some((0, line)),
        LineFormat::BySeat => seat_of_line(count, line),
    }
}

fn seat_of_line(count: usize, line: &[u8]) -> Option<(usize, &[u8])>
    ensures one { IfSome result (λ p. IsFor LineFormat.BySeat count line.now p.0 p.1.now) }
    ensures there { IfSome result (λ p. p.0 < count) }
    ensures none { result ≡ None → IsForNobody LineFormat.BySeat count line.now }
{
    let Some((seat, text)) = split_seat(line) else {
        return None;
    };
    let seat = usize::from(seat);
    if seat <= count {
        Some((seat - 1, text))
    } else {
        None
    }
}
