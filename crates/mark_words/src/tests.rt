//! Claims on one thread and on two.
ghost use Rattle.std.specs.Prelude.{◌≡◌, IfSome, IfOk};
ghost use Rattle.mark_words.specs.Shows.{newcomer};
ghost use Rattle.mark_words.specs.Making.{AreSeats};
ghost use Rattle.mark_words.specs.Closing.{AreAll};

use crate::{ClaimSeat, Claims};
use std::alloc::{AllocError, Global};
use std::thread::join;

/// The two seats of a set-up.
fn pair(claims: &Claims, seats: Vec<ClaimSeat>) -> Option<(ClaimSeat, ClaimSeat)>
    requires { AreSeats claims.now.site 2 seats.items }
    ensures { IfSome result (λ p. (p.0 ≡ newcomer claims.now.site 0) × (p.1 ≡ newcomer claims.now.site 1)) }
{
    let _ = claims;
    let mut seats = seats;
    let two = seats.pop()?;
    let one = seats.pop()?;
    Some((one, two))
}

/// Two seats in one list.
fn both(
    alloc: Global,
    claims: &Claims,
    one: ClaimSeat,
    two: ClaimSeat,
) -> Result<Vec<ClaimSeat>, AllocError>
    requires own { (one.site ≡ claims.now.site) × (two.site ≡ claims.now.site) }
    requires seats { claims.now.seats ≡ 2 }
    ensures { IfOk result (λ v. AreAll claims.now.site claims.now.seats v.items) }
{
    let _ = claims;
    let mut seats = Vec::new(alloc);
    seats.push(one)?;
    seats.push(two)?;
    Ok(seats)
}

#[test]
fn a_bit_is_won_once(rt: HostRuntime) -> Result<(), AllocError> {
    let (claims, seats) = Claims::set_up(rt.alloc(), 70, 2)?;
    let (mut zero, mut one) = pair(&claims, seats).expect(&rt, "two seats");
    assert!(rt; claims.claim(&mut zero, 65));
    assert!(rt; !claims.claim(&mut one, 65));
    assert!(rt; claims.claim(&mut one, 0));
    let seats = both(rt.alloc(), &claims, zero, one)?;
    let Ok(set) = claims.close(rt.alloc(), seats) else {
        assert!(rt; false, "there is no memory for the close");
        return Ok(());
    };
    assert_eq!(rt; set.len(), 70);
    for (bit, value) in set.iter().enumerate() {
        assert!(rt; *value == (bit == 0 || bit == 65));
    }
    Ok(())
}

#[test]
fn no_bits_have_no_values(rt: HostRuntime) -> Result<(), AllocError> {
    let (claims, seats) = Claims::set_up(rt.alloc(), 0, 1)?;
    assert_eq!(rt; claims.bits(), 0);
    let Ok(set) = claims.close(rt.alloc(), seats) else {
        assert!(rt; false, "there is no memory for the close");
        return Ok(());
    };
    assert!(rt; set.is_empty());
    Ok(())
}

// Claims each bit: how many it won.
fn claim_each(claims: &Claims, seat: ClaimSeat) -> u32
    requires { seat.site ≡ claims.now.site }
{
    let mut seat = seat;
    let mut won = 0u32;
    for bit in 0..claims.bits() {
        if claims.claim(&mut seat, bit) {
            won = won.saturating_add(1);
        }
    }
    won
}

#[test]
fn two_threads_win_each_bit_once(rt: HostRuntime) -> Result<(), AllocError> {
    let (claims, seats) = Claims::set_up(rt.alloc(), 1000, 2)?;
    let (one, two) = pair(&claims, seats).expect(&rt, "two seats");
    let shared = &claims;
    let (by_one, by_two) = join(
        &rt,
        move || claim_each(shared, one),
        move || claim_each(shared, two),
    );
    assert_eq!(rt; u64::from(by_one) + u64::from(by_two), 1000);
    Ok(())
}
