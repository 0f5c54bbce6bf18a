//! What a vertex sends along its arcs.
ghost use Rattle.std.specs.Prelude.{◌≡◌, ◌++◌, OnOk};
ghost use Rattle.std.specs.List.{flat_map};
ghost use Rattle.graphite_part.specs.Pieces.{IsChain};
ghost use Rattle.graphite_loop.specs.Deliveries.{message_by, deliveries_along, LeavesApart};

use crate::Delivery;
use graphite_api::{Arc, Message, Program};
use graphite_part::{Piece, Plain};
use graphite_time::{Interval, NoMemory};

/// Adds what the pieces of sent states tell along the arcs.
pub(crate) fn scatter<P: Program>(
    program: &P,
    arcs: &[Arc],
    sent: &[Piece<P::State>],
    out: &mut Vec<Delivery<P::Note>>,
) -> Result<(), NoMemory>
    requires { IsChain sent.now }
    ensures { OnOk result (out.new.items ≡ out.old.items ++ flat_map (λ arc. deliveries_along
        P.rules sent.now arc) arcs.now) }
{
    for arc in arcs {
        scatter_along(program, arc, pieces_within(sent, arc.over), out)?;
    }
    Ok(())
}

/// The pieces that can have an instant in common with the interval. They are found by halving, since
/// a vertex may have many pieces and many arcs.
fn pieces_within<T: Plain>(pieces: &[Piece<T>], over: Interval) -> &[Piece<T>]
    requires { IsChain pieces.now }
    ensures { LeavesApart pieces.now result.now over }
{
    let from = over.a();
    let until = over.b();
    let start = pieces.partition_point(|piece| piece.over.b() <= from);
    let later = &pieces[start..];
    let end = later.partition_point(|piece| piece.over.a() < until);
    &later[..end]
}

/// Adds what the pieces of sent states tell along an arc.
fn scatter_along<P: Program>(
    program: &P,
    arc: &Arc,
    sent: &[Piece<P::State>],
    out: &mut Vec<Delivery<P::Note>>,
) -> Result<(), NoMemory>
    ensures { OnOk result (out.new.items ≡ out.old.items ++ deliveries_along
        P.rules sent.now arc.now) }
{
    for piece in sent {
        if let Some(message) = told(program, arc, piece) {
            out.push(Delivery {
                to: arc.to,
                message,
            })?;
        }
    }
    Ok(())
}

/// What a piece of a sent state tells along an arc, over the instants that both hold.
fn told<P: Program>(program: &P, arc: &Arc, piece: &Piece<P::State>) -> Option<Message<P::Note>>
    ensures { result ≡ message_by P.rules
        arc.now piece.now }
{
    let over = piece.over.meet(arc.over)?;
    program.scatter(piece.value, arc, over)
}
