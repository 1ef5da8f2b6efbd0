//! The paths that are served.
ghost use Rattle.std.specs.Prelude.{◌≡◌, ◌==◌, None, Some, IfOk, IfNone, IfSome, IsUtf8};
ghost use Rattle.push_paths.specs.Paths.{is_push_path, path_of, push_routes, token_of};

use matchit::Router;
use push_model::NoMemory;
use std::alloc::Global;
use std::marker::Model;
use std::str::from_utf8;

// The bytes before a token.
const PREFIX: usize = 10;

/// The router of the paths that are served. It is made once, beside what serves connections.
#[derive(Drop)]
pub struct Paths {
    router: Router<()>,
}

impl Model for Paths {
    ghost use Rattle.std.specs.Prelude.{◌≡◌, ⊤};
    ghost use Rattle.push_paths.specs.Paths.{push_routes};

    ghost Value = { ⊤ };

    ghost view = { λ _. tt };

    ghost invariant = { λ p. p.router ≡ push_routes };
}

// A router with the one route of push endpoints.
fn push_router(alloc: Global) -> Result<Router<()>, NoMemory>
    ensures { IfOk result (λ router. router ≡ push_routes) }
{
    let mut router = Router::new(alloc);
    match router.insert("/wpush/v1/{token}", ()) {
        Ok(()) => Ok(router),
        Err(_) => Err(NoMemory),
    }
}

// Whether a path is `/wpush/v1/` and one part behind it, which is not empty.
fn is_push_path(router: &Router<()>, path: &str) -> bool
    requires { router.now ≡ push_routes }
    ensures { result ≡ is_push_path path.now }
{
    match router.at(path) {
        Ok(_) => true,
        Err(_) => false,
    }
}

// The path of a target.
fn path_of(target: &[u8]) -> &[u8]
    ensures { result.now ≡ path_of target.now }
{
    for (end, b) in target.iter().enumerate() {
        if *b == b'?' {
            return &target[..end];
        }
    }
    target
}

impl Paths {
    /// The router of the paths that are served.
    pub fn new(alloc: Global) -> Result<Paths, NoMemory> {
        let router = push_router(alloc)?;
        Ok(Paths { router })
    }

    /// The part of the target that is to be a token: what stands behind `/wpush/v1/`, up to the first `?`. Nothing in it is
    /// decoded. `None` comes exactly where the target has another path, or, of bytes that are no UTF-8, always. It takes no
    /// memory.
    pub fn token<'a>(&self, target: &'a [u8]) -> Option<&'a [u8]>
        ensures found { IfSome result (λ token. token_of target.now ≡ Some token.now) }
        ensures none { IfNone result (IsUtf8 target.now → token_of target.now ≡ None) }
    {
        let path = path_of(target);
        let Ok(text) = from_utf8(path) else {
            return None;
        };
        if is_push_path(&self.router, text) {
            Some(&path[PREFIX..])
        } else {
            None
        }
    }
}
