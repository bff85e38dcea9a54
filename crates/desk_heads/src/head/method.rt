//! Methods.

/// What a request wants done (RFC 9110, section 9). Letters of the other case make another method.
#[derive(Clone, Copy, PartialEq, Eq)]
pub enum Method {
    /// `GET`.
    Get,
    /// `PUT`.
    Put,
    /// `POST`.
    Post,
    /// `HEAD`, which no route has.
    Head,
    /// Any other method, which no route has.
    Other,
}
