//! What stands behind each name.
ghost use Rattle.std.specs.Prelude.{◌≡◌};
ghost use Rattle.schedule_text.specs.Kinds.{shape_by, flight_shapes, shard_shapes, shape_of, tagged};

use crate::kind::Shape;

fn shard_shape(name: &[u8]) -> Option<Shape>
    ensures { result ≡ shape_by shard_shapes name.now }
{
    if name == b"tick".as_slice() {
        Some(Shape::Tick)
    } else if name == b"notif".as_slice() {
        Some(Shape::Notif)
    } else if name == b"kill".as_slice() || name == b"up".as_slice() {
        Some(Shape::Node)
    } else if name == b"expire".as_slice() || name == b"drop".as_slice() {
        Some(Shape::User)
    } else if name == b"orphans".as_slice()
        || name == b"idle".as_slice()
        || name == b"report".as_slice()
    {
        Some(Shape::Alone)
    } else {
        None
    }
}

fn flight_shape(name: &[u8]) -> Option<Shape>
    ensures { result ≡ shape_by flight_shapes name.now }
{
    if name == b"begin".as_slice() {
        Some(Shape::Begin)
    } else if name == b"direct".as_slice()
        || name == b"store".as_slice()
        || name == b"giveup".as_slice()
    {
        Some(Shape::Op)
    } else if name == b"reread".as_slice()
        || name == b"nudge".as_slice()
        || name == b"heard".as_slice()
        || name == b"lost".as_slice()
        || name == b"clear".as_slice()
    {
        Some(Shape::Actor)
    } else {
        shard_shape(name)
    }
}

/// What stands behind the name of a kind of step.
pub fn shape_of(name: &[u8]) -> Option<Shape>
    ensures { result ≡ shape_of name.now }
{
    if name == b"register".as_slice() {
        Some(Shape::Register)
    } else if name == b"unregister".as_slice() {
        Some(Shape::Unregister)
    } else if name == b"ack".as_slice() {
        Some(Shape::Ack)
    } else if name == b"create".as_slice()
        || name == b"claim".as_slice()
        || name == b"attach".as_slice()
        || name == b"check".as_slice()
        || name == b"topics".as_slice()
        || name == b"plains".as_slice()
        || name == b"take".as_slice()
        || name == b"renew".as_slice()
        || name == b"close".as_slice()
        || name == b"release".as_slice()
        || name == b"save".as_slice()
    {
        Some(Shape::Session)
    } else {
        flight_shape(name)
    }
}

/// The same, where the word behind the name is known, which says whose step it is.
pub fn tagged(shape: Shape, tag: &[u8]) -> Shape
    ensures { result ≡ tagged shape tag.now }
{
    match shape {
        Shape::Actor if tag == b"f".as_slice() => Shape::Flight,
        Shape::Actor if tag == b"s".as_slice() => Shape::Saver,
        shape => shape,
    }
}
