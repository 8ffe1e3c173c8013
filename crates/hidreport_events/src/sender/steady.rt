//! Places that tremble.
ghost use Rattle.std.specs.Prelude.{◌≡◌};
ghost use Rattle.hidreport_events.specs.Senders.{drawn, is_near_by, middle, mostly, steadied};

/// A place behind the last one, by how much its axis may tremble: close to it, it is the last one.
#[tactic(auto, unfolding(crate::specs::Senders::steadied))]
pub(crate) fn steadied(value: i32, before: i32, fuzz: i32) -> i32
    ensures { result ≡ steadied value before fuzz }
{
    if fuzz == 0 {
        return value;
    }
    if is_near_by(value, before, fuzz / 2) {
        return before;
    }
    drawn(value, before, fuzz)
}

/// A place that is drawn to the last one, the nearer the more.
#[tactic(auto, unfolding(crate::specs::Senders::drawn))]
fn drawn(value: i32, before: i32, fuzz: i32) -> i32
    ensures { result ≡ drawn value before fuzz }
{
    if is_near_by(value, before, fuzz) {
        return mostly(before, value);
    }
    if is_near_by(value, before, fuzz.wrapping_mul(2)) {
        return middle(before, value);
    }
    value
}

/// Three parts of a place and one of another, in 32 bits.
#[tactic(auto, unfolding(crate::specs::Senders::mostly))]
fn mostly(one: i32, other: i32) -> i32
    ensures { result ≡ mostly one other }
{
    one.wrapping_mul(3).wrapping_add(other) / 4
}

/// The middle of two places, in 32 bits.
#[tactic(auto, unfolding(crate::specs::Senders::middle))]
fn middle(one: i32, other: i32) -> i32
    ensures { result ≡ middle one other }
{
    one.wrapping_add(other) / 2
}

/// Whether a place is nearer to another than this.
#[tactic(auto, unfolding(crate::specs::Senders::is_near_by))]
fn is_near_by(value: i32, other: i32, by: i32) -> bool
    ensures { result ≡ is_near_by value other by }
{
    value > other.wrapping_sub(by) && value < other.wrapping_add(by)
}
