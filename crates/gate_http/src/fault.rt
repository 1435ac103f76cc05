//! What HTTP itself refuses.
ghost use Rattle.std.specs.Prelude.{◌≡◌};

/// Why a request gets an answer of HTTP's own.
#[derive(Clone, Copy)]
pub enum HttpFault {
    /// The first 8,192 bytes hold no head, or the head has over 66 lines.
    HeadTooLarge,
    /// The input ends within the request.
    Cut,
    /// The head is no request, or what it says of its length is no number.
    BadRequest,
    /// The path has no route.
    NoRoute,
    /// The route takes POST alone.
    NotPost,
    /// The route takes GET alone.
    NotGet,
    /// The body has no length.
    NoLength,
    /// The body has over 65,536 bytes.
    TooLarge,
    /// No queue has the name.
    NoQueue,
    /// No item has the serial.
    NoItem,
    /// No accepted delivery has the id.
    NoDelivery,
}

impl HttpFault {
    ghost use Rattle.gate_http.specs.Faults.{fault_status, fault_text};

    /// The status of the answer.
    pub(crate) fn status(self) -> u16
        ensures { result ≡ fault_status self }
    {
        match self {
            HttpFault::HeadTooLarge => 431,
            HttpFault::Cut | HttpFault::BadRequest => 400,
            HttpFault::NoRoute => 404,
            HttpFault::NotPost | HttpFault::NotGet => 405,
            HttpFault::NoLength => 411,
            HttpFault::TooLarge => 413,
            HttpFault::NoQueue | HttpFault::NoItem | HttpFault::NoDelivery => 404,
        }
    }

    /// The body of the answer.
    pub(crate) fn text(self) -> &'static str
        ensures { result.now ≡ fault_text self }
    {
        match self {
            HttpFault::HeadTooLarge => "{\"error\":\"head-too-large\"}",
            HttpFault::Cut => "{\"error\":\"cut\"}",
            HttpFault::BadRequest => "{\"error\":\"bad-request\"}",
            HttpFault::NoRoute => "{\"error\":\"no-route\"}",
            HttpFault::NotPost | HttpFault::NotGet => "{\"error\":\"method\"}",
            HttpFault::NoLength => "{\"error\":\"length\"}",
            HttpFault::TooLarge => "{\"error\":\"too-large\"}",
            HttpFault::NoQueue => "{\"error\":\"no-queue\"}",
            HttpFault::NoItem => "{\"error\":\"no-item\"}",
            HttpFault::NoDelivery => "{\"error\":\"no-delivery\"}",
        }
    }
}
