//! The methods of routes.
ghost use Rattle.std.specs.Prelude.{◌≡◌, ◌≤◌, length};
ghost use Rattle.desk_replies.specs.Methods.{allows, methods_text};

use desk_heads::Method;

/// The methods of a route.
#[derive(Clone, Copy, PartialEq, Eq)]
pub enum Methods {
    /// GET alone.
    Get,
    /// GET and PUT.
    GetPut,
    /// POST alone.
    Post,
}

impl Methods {
    /// Whether a method is one of them.
    pub fn allows(&self, method: Method) -> bool
        ensures { result ≡ allows self.now method }
    {
        match self {
            Methods::Get => matches!(method, Method::Get),
            Methods::GetPut => matches!(method, Method::Get | Method::Put),
            Methods::Post => matches!(method, Method::Post),
        }
    }

    /// The methods as an Allow field lists them (RFC 9110, section 10.2.1).
    pub fn text(&self) -> &'static str
        ensures text { result.now ≡ methods_text self.now }
        ensures short { length result.now ≤ 8 }
    {
        match self {
            Methods::Get => "GET",
            Methods::GetPut => "GET, PUT",
            Methods::Post => "POST",
        }
    }
}
