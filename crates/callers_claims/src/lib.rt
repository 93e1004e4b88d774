//! A caller to copy: a worker that claims bits beside others, each of which is won once.
#![tactic(auto)]

ghost use Rattle.std.specs.Prelude.{◌≡◌, ◌+◌, length};

use mark_words::{ClaimSeat, Claims};

/// Claims each bit with a seat of these claims, and answers how many it won: each of them was won by
/// nobody else, and the seat shows them. It waits for nobody and takes no memory.
pub fn claim_each(claims: &Claims, seat: ClaimSeat) -> (ClaimSeat, u32)
    requires { seat.site ≡ claims.now.site }
    ensures own { result.0.site ≡ claims.now.site }
    ensures counted { length result.0.won ≡ length seat.won + result.1 }
{
    let mut seat = seat;
    let mut won = 0u32;
    for bit in 0..claims.bits() {
        if claims.claim(&mut seat, bit) {
            won += 1;
        }
    }
    (seat, won)
}

#[cfg(test)]
mod tests;
