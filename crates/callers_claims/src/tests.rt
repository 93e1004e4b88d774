//! Two threads and a thousand bits: each is won once.
ghost use Rattle.std.specs.Prelude.{◌≡◌, ℕ, IfSome};
ghost use Rattle.mark_words.specs.Rule.{IsAt};
ghost use Rattle.mark_words.specs.Shows.{Claimant};

use crate::claim_each;
use mark_words::{ClaimSeat, Claims};
use std::alloc::AllocError;
use std::thread::join;

// The last of these seats, each of which is of the claims.
fn taken(claims: &Claims, seats: &mut Vec<ClaimSeat>) -> Option<ClaimSeat>
    requires { (i : ℕ) (s : Claimant) → IsAt seats.old.items i s → s.site ≡ claims.now.site }
    ensures own { IfSome result (λ s. s.site ≡ claims.now.site) }
    ensures rest { (i : ℕ) (s : Claimant) → IsAt seats.new.items i s → s.site ≡ claims.now.site }
{
    let _ = claims;
    seats.pop()
}

#[test]
fn two_threads_win_each_bit_once(rt: HostRuntime) -> Result<(), AllocError> {
    let (claims, mut seats) = Claims::set_up(rt.alloc(), 1000, 2)?;
    let one = taken(&claims, &mut seats).expect(&rt, "a seat");
    let two = taken(&claims, &mut seats).expect(&rt, "another seat");
    let shared = &claims;
    let ((_, by_one), (_, by_two)) = join(
        &rt,
        move || claim_each(shared, one),
        move || claim_each(shared, two),
    );
    assert_eq!(rt; u64::from(by_one) + u64::from(by_two), 1000);
    Ok(())
}
