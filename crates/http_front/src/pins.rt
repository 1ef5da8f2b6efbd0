//! Worked examples of the definitions, each for a reader to check at a glance.
ghost use Rattle.std.specs.Prelude.{◌≡◌, ◌^◌, ◌-◌, [], true, false, Some, None, codes};
ghost use Rattle.http_wire.specs.HeadValue.{HeadValue};
ghost use Rattle.http_wire.specs.declared.body.Body.TheVariants.{TooLong};
ghost use Rattle.http_front.specs.declared.ends.HttpEnd.TheVariants.{Asked, Limit, LongBody, OpsSpent};
ghost use Rattle.http_front.specs.Connections.{asks_close};
ghost use Rattle.http_front.specs.Exchanges.{body_end, end_after};

/// The word close is a member of a list, in any case, and may have spaces and tabs round it.
pub fn close_is_a_member()
    ensures alone { asks_close (codes "close") ≡ true }
    ensures listed { asks_close (codes "keep-alive ,\t CLOSE \t, x") ≡ true }
    ensures last { asks_close (codes ",close") ≡ true }
    ensures longer { asks_close (codes "closed") ≡ false }
    ensures apart { asks_close (codes "clo se") ≡ false }
    ensures comma { asks_close (codes ",") ≡ false }
    ensures empty { asks_close [] ≡ false }
{}

/// Of the ends after an answer the first holds: by the body, by what was asked, by the count, by the numbers of flights.
pub fn ends_have_an_order()
    ensures body { (h : HeadValue) → body_end TooLong h ≡ Some LongBody }
    ensures request { end_after (Some Asked) 1000 (2 ^ 63) ≡ Some Asked }
    ensures count { end_after None 1000 (2 ^ 63) ≡ Some Limit }
    ensures numbers { end_after None 999 (2 ^ 63) ≡ Some OpsSpent }
    ensures goes_on { end_after None 999 (2 ^ 63 - 1) ≡ None }
{}
