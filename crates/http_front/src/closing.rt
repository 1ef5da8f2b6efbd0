//! Whether a request is the last of its connection (RFC 9112, section 9.3).
ghost use Rattle.std.specs.Prelude.{◌≡◌, ◌<◌, ◌∷◌, [], length, IfSome};
ghost use Rattle.std.specs.Option.{option_map_or};
ghost use Rattle.std.specs.List.{list_all, list_any, slice_split};
ghost use Rattle.http_front.specs.Connections.{asks_close, is_blank, is_close, is_close_line, is_comma, is_last, skip_blanks};

use http_wire::Head;

fn is_blank(b: u8) -> bool
    ensures { result ≡ is_blank b }
{
    b == b' ' || b == b'\t'
}

fn are_blanks(bytes: &[u8]) -> bool
    ensures { result ≡ list_all is_blank bytes.now }
{
    bytes.iter().all(|b| is_blank(*b))
}

// What stands behind the spaces and tabs in front.
fn skip_blanks(member: &[u8]) -> &[u8]
    ensures { result.now ≡ skip_blanks member.now }
{
    let mut rest = member;
    loop {
        match rest {
            [] => return rest,
            [b, tail @ ..] => {
                if !is_blank(*b) {
                    return rest;
                }
                rest = tail;
            }
        }
    }
}

// Whether a member of the list is `close`, without regard to case and to the spaces and tabs round it.
fn is_close(member: &[u8]) -> bool
    ensures { result ≡ is_close member.now }
{
    let word = skip_blanks(member);
    word.len() >= 5 && word[..5].eq_ignore_ascii_case(b"close") && are_blanks(&word[5..])
}

// The first member of a list, and the list behind its comma, if there is one.
fn cut(list: &[u8]) -> (&[u8], Option<&[u8]>)
    ensures parts { slice_split is_comma list.now ≡ result.0.now ∷ option_map_or (λ rest. slice_split is_comma rest.now) result.1 [] }
    ensures shorter { IfSome result.1 (λ rest. length rest.now < length list.now) }
{
    for (end, b) in list.iter().enumerate() {
        if *b == b',' {
            return (&list[..end], Some(&list[end + 1..]));
        }
    }
    (list, None)
}

// Whether a member of the list is `close`.
fn asks_close(list: &[u8]) -> bool
    ensures { result ≡ asks_close list.now }
{
    let mut rest = list;
    'members: loop {
        let (member, more) = cut(rest);
        if is_close(member) {
            return true;
        }
        match more {
            Some(behind) => rest = behind,
            None => return false,
        }
    }
}

fn is_close_line(name: &[u8], value: &[u8]) -> bool
    ensures { result ≡ is_close_line (record { name = name.now; value = value.now }) }
{
    name == b"connection".as_slice() && asks_close(value)
}

fn asks_to_close(head: &Head) -> bool
    ensures { result ≡ list_any is_close_line head.now.lines }
{
    for i in 0..head.lines() {
        let (name, value) = head.line(i);
        if is_close_line(name, value) {
            return true;
        }
    }
    false
}

/// Whether the connection ends after the request with that head: it is one of HTTP/1.0, or `close` is a member of the list that
/// its lines Connection are together.
pub fn is_last(head: &Head) -> bool
    ensures { result ≡ is_last head.now }
{
    head.minor() == 0 || asks_to_close(head)
}
