//! The resource at a path.
ghost use Rattle.std.specs.Prelude.{◌≡◌};
ghost use Rattle.http_requests.specs.Routes as spec;

use crate::{GetRoute, PostRoute, Route};

/// The resource at a path of the table: its methods, and the route of each.
#[derive(Clone, Copy, Debug, PartialEq, Eq)]
pub enum Resource {
    Get(GetRoute),
    Post(PostRoute),
    GetAndPost(GetRoute, PostRoute),
}

/// The methods of a resource, for the field `Allow` (RFC 9110, section 10.2.1).
#[derive(Clone, Copy, Debug, PartialEq, Eq)]
pub enum Methods {
    Get,
    Post,
    GetAndPost,
}

impl Methods {
    /// Their names, as `Allow` lists them: `GET`, `POST` or `GET, POST`.
    pub fn text(self) -> &'static str
        ensures { result.now ≡ spec.methods_text self }
    {
        match self {
            Methods::Get => "GET",
            Methods::Post => "POST",
            Methods::GetAndPost => "GET, POST",
        }
    }
}

impl Resource {
    /// The methods of the resource.
    pub(crate) fn methods(self) -> Methods
        ensures { result ≡ spec.methods_of self }
    {
        match self {
            Resource::Get(_) => Methods::Get,
            Resource::Post(_) => Methods::Post,
            Resource::GetAndPost(_, _) => Methods::GetAndPost,
        }
    }

    /// The route of GET, if it has one.
    fn get_route(self) -> Option<Route>
        ensures { result ≡ spec.got self }
    {
        match self {
            Resource::Get(route) | Resource::GetAndPost(route, _) => Some(Route::Get(route)),
            Resource::Post(_) => None,
        }
    }

    /// The route of POST, if it has one.
    fn post_route(self) -> Option<Route>
        ensures { result ≡ spec.posted self }
    {
        match self {
            Resource::Post(route) | Resource::GetAndPost(_, route) => Some(Route::Post(route)),
            Resource::Get(_) => None,
        }
    }

    /// The route of the method, if the resource has it. Methods are case-sensitive (RFC 9110,
    /// section 9.1).
    pub(crate) fn route(self, method: &[u8]) -> Option<Route>
        ensures { result ≡ spec.route_of self method.now }
    {
        if method == b"GET".as_slice() {
            self.get_route()
        } else if method == b"POST".as_slice() {
            self.post_route()
        } else {
            None
        }
    }
}
