//! Tests of positions and directions.

ghost use Rattle.std.specs.Prelude.{◌≡◌, ◌+◌, ◌-◌, ◌<◌, ◌≤◌, ◌^◌, ℕ};

use regress_input::position::{Backward, Direction, Forward, IndexPosition, PositionType};

// Moves a position of any type forward and back.
fn there_and_back<P: PositionType>(p: P, units: usize) -> P
    requires { P.offset p + units < 2 ^ 64 }
    ensures { P.offset result ≡ P.offset p }
{
    let mut q = p + units;
    q -= units;
    q += units;
    q - units
}

// Returns whether one position is before the other, and whether they are equal.
fn compared<P: PositionType>(p: P, q: P) -> (bool, bool) {
    (p < q, p == q)
}

// Returns whether a position differs from the one that stands for none, and whether that one equals
// itself.
fn differs_from_none_position<P: PositionType>(units: usize) -> (bool, bool) {
    (
        P::from_offset(units) == P::no_position(),
        P::no_position() == P::no_position(),
    )
}

fn offset_again<P: PositionType>(units: usize) -> usize {
    P::from_offset(units).to_offset()
}

fn offset_of<'a>(p: IndexPosition<'a>) -> usize {
    p - IndexPosition::new(0)
}

fn kept<'a>(p: IndexPosition<'a>) -> usize
    requires { ⟦<IndexPosition<'a> as PositionType>⟧.offset p < 1000 }
{
    offset_of(there_and_back(p, 7))
}

fn compared_in_order<'a>(p: IndexPosition<'a>, q: IndexPosition<'a>) -> (bool, bool) {
    compared(p, q)
}

fn position_plus_units<'a>(mut p: IndexPosition<'a>, units: usize) -> IndexPosition<'a>
    requires { ⟦<IndexPosition<'a> as PositionType>⟧.offset p + units < 2 ^ 64 }
    ensures { ⟦<IndexPosition<'a> as PositionType>⟧.offset result
        ≡ ⟦<IndexPosition<'a> as PositionType>⟧.offset p.entry + units }
{
    p += units;
    p
}

fn position_minus_units<'a>(mut p: IndexPosition<'a>, units: usize) -> IndexPosition<'a>
    requires { units ≤ ⟦<IndexPosition<'a> as PositionType>⟧.offset p }
    ensures { ⟦<IndexPosition<'a> as PositionType>⟧.offset result
        ≡ ⟦<IndexPosition<'a> as PositionType>⟧.offset p.entry - units }
{
    p -= units;
    p
}

#[test]
fn positions_are_offsets(rt: HostRuntime) {
    IndexPosition::check_size();
    let offsets = [
        offset_of(IndexPosition::new(3) + 2),
        offset_of(IndexPosition::new(3) - 2),
        offset_of(position_plus_units(IndexPosition::new(3), 4)),
        offset_of(position_minus_units(IndexPosition::new(3), 2)),
        kept(IndexPosition::new(3)),
    ];
    assert_eq!(rt; offsets, [5, 1, 7, 1, 3]);
}

#[test]
fn positions_are_compared_by_offsets(rt: HostRuntime) {
    let answers = [
        compared_in_order(IndexPosition::new(3), IndexPosition::new(3)),
        compared_in_order(IndexPosition::new(3), IndexPosition::new(4)),
    ];
    assert!(rt; answers == [(false, true), (true, false)]);
}

#[test]
fn a_position_stands_for_none(rt: HostRuntime) {
    let answers = differs_from_none_position::<IndexPosition<'_>>(5);
    assert!(rt; answers == (false, true) && offset_again::<IndexPosition<'_>>(5) == 5);
}

#[test]
fn directions_know_their_way(rt: HostRuntime) {
    let _forward = Forward::new();
    let _backward = Backward::new();
    assert!(rt; Forward::FORWARD && !Backward::FORWARD);
}
