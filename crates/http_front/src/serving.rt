//! A connection, request by request.
ghost use Rattle.std.specs.Prelude.{◌≡◌, ◌≤◌, ℕ, true};
ghost use Rattle.push_model.specs.Worlds.{start};
ghost use Rattle.push_model.specs.Accounting.{IsAccounted};
ghost use Rattle.push_model.specs.Caring.{is_cared};
ghost use Rattle.push_model.specs.DeskViews.{IsHonest, world_at};
ghost use Rattle.http_front.specs.OpNumbers.{IsAbove};
ghost use Rattle.http_front.specs.Served.{EndCausedBy, Served, scene};

use crate::ends::HttpEnd;
use crate::exchange::serve_next;
use crate::ops::Ops;
use http_bytes::Rest;
use node_routes::NodeLink;
use push_model::Desks;
use push_outside::{Clock, Wire};
use push_paths::Paths;
use std::alloc::Global;

/// Serves one connection of HTTP/1.1 (RFC 9112): it reads request after request, routes the message of each that has no fault
/// (RFC 8030, section 5), and answers each before it reads the next. The flight of a message has the pass's number on its token's
/// shard and the number `k` of `ops`, which grows by 1 with each; it is above that of every own flight, and stays so.
///
/// A request is answered by its first fault, or by what its route answered: 201 exactly where the message was taken. Where memory is
/// wanted after a request was read, the answer is one constant text with the code 500, and the connection goes on.
///
/// `Asked`, `LongBody`, `Limit` and `OpsSpent` come only once the last answer was written whole, and it said `Connection: close`;
/// `OpsSpent` comes also before the first request. `Fault` comes where no request could be read; of bytes that are none, and of a head
/// that is too long, the sender is told before. Or it comes where an answer could not be written whole.
pub fn serve_http<D: Desks, L: NodeLink<D>, C: Clock, W: Wire>(
    alloc: Global,
    desks: &mut D,
    link: &mut L,
    clock: &C,
    wire: &mut W,
    ops: &mut Ops,
    paths: &Paths,
) -> HttpEnd
    requires honest { IsHonest (D.view desks.old) }
    requires above { IsAbove (D.view desks.old) ops.old.k }
    ensures served { Served (C.moment clock.now) result (scene D.view L.faults W.left W.written desks.old link.old wire.old ops.old) (scene D.view L.faults W.left W.written desks.new link.new wire.new ops.new) }
    ensures faults { L.faults link.old ≤ L.faults link.new }
    ensures cause { EndCausedBy result (W.faults wire.old) (W.faults wire.new) (W.lulls wire.new) }
    ensures honest { IsHonest (D.view desks.new) }
    ensures above { IsAbove (D.view desks.new) ops.new.k }
    ensures accounted { (k number next : ℕ) → (D.view desks.new).opened k ≡ start number next → IsAccounted (start number next) ((D.view desks.new).seen k) }
    ensures cared { (k : ℕ) → is_cared (world_at (D.view desks.new) k) ≡ true }
{
    if ops.are_spent() {
        return HttpEnd::OpsSpent;
    }
    let mut rest = Rest::new(alloc);
    let mut count = 0;
    'serving: loop {
        match serve_next(
            alloc,
            desks,
            link,
            clock,
            wire,
            ops,
            paths,
            &mut rest,
            count + 1,
        ) {
            Ok(None) => count += 1,
            Ok(Some(end)) => return end,
            Err(fault) => return HttpEnd::Fault(fault),
        }
    }
}
