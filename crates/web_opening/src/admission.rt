//! Who is let in. A page of a foreign site can send a request to a server on 127.0.0.1 through a user's browser. The browser writes the
//! page's origin into the request (RFC 6455, 4.1, 8), which differs from the request's host. Where the site's name was made to resolve to
//! 127.0.0.1, the two are equal: so the host has to be a name of this machine that nobody else gives, or one that is named.
ghost use Rattle.std.specs.Prelude.{◌≡◌, length, codes, All};
ghost use Rattle.std.specs.Char.{is_ascii_digit};
ghost use Rattle.std.specs.List.{list_all};
ghost use Rattle.httparse.specs.Spans.{IsHeaderWithin};
ghost use Rattle.websocket.specs.Headers.{fields_of, header_value};
ghost use Rattle.web_opening.specs.LetIn.{is_port, is_at_any_port, is_this_machine, is_named_in, is_host_let_in, is_origin_by, is_page_let_in, is_origin_let_in, is_let_in};

use crate::lines::header_value;
use crate::text::{Letters, begins_with, eq_ignore_case, has_element};
use httparse::spans::HeaderSpan;
use listed::Listed;

/// Who is let in besides those that name this machine as `127.0.0.1`, `localhost` or `[::1]`.
#[derive(Drop)]
pub struct Admission {
    /// Hosts, with commas in between, each as a request's `Host` has it: with its port, unless that is 80, or 443 under TLS.
    pub hosts: Listed<u8>,
    /// Origins, with commas in between, as `https://desk.example:8443`.
    pub origins: Listed<u8>,
}

/// Says whether all bytes are digits.
fn are_digits(text: &[u8]) -> bool
    ensures { result ≡ list_all is_ascii_digit text.now }
{
    text.iter().all(|byte| byte.is_ascii_digit())
}

/// Says whether a text is nothing, or a colon and digits.
#[tactic(auto, using(std::proofs::lemmas::Bool::Decides::nat_tests))]
fn is_port(text: &[u8]) -> bool
    ensures { result ≡ is_port text.now }
{
    text.is_empty() || (text[0] == b':' && are_digits(&text[1..]))
}

/// Says whether a host has a name, at any port.
#[tactic(auto, unfolding(crate::specs::LetIn::is_at_any_port))]
fn is_at_any_port(host: &[u8], name: &[u8]) -> bool
    ensures { result ≡ is_at_any_port host.now name.now }
{
    begins_with(host, name) && is_port(&host[name.len()..])
}

/// Says whether a host is this machine, by a name that nobody else gives.
fn is_this_machine(host: &[u8]) -> bool
    ensures { result ≡ is_this_machine host.now }
{
    is_at_any_port(host, b"127.0.0.1")
        || is_at_any_port(host, b"localhost")
        || is_at_any_port(host, b"[::1]")
}

/// Says whether a text is one of those between the commas of a list. Nothing is none of them.
fn is_named_in(list: &[u8], text: &[u8]) -> bool
    ensures { result ≡ is_named_in list.now text.now }
{
    !text.is_empty() && has_element(list, text, Letters::AnyCase)
}

/// Says whether an origin is a scheme and then a host.
#[tactic(auto, unfolding(crate::specs::LetIn::is_origin_by))]
fn is_origin_by(origin: &[u8], scheme: &[u8], host: &[u8]) -> bool
    ensures { result ≡ is_origin_by origin.now scheme.now host.now }
{
    begins_with(origin, scheme) && eq_ignore_case(&origin[scheme.len()..], host)
}

impl Admission {
    /// Says whether a request to a host is let in.
    fn is_host_let_in(&self, host: &[u8]) -> bool
        ensures { result ≡ is_host_let_in self.now.hosts host.now }
    {
        is_this_machine(host) || is_named_in(self.hosts.as_slice(), host)
    }

    /// Says whether a page of an origin is let in.
    fn is_page_let_in(&self, host: &[u8], origin: &[u8]) -> bool
        ensures { result ≡ is_page_let_in self.now.origins host.now origin.now }
    {
        is_origin_by(origin, b"http://", host)
            || is_origin_by(origin, b"https://", host)
            || is_named_in(self.origins.as_slice(), origin)
    }

    /// Says whether a request's origin is let in, if it has one.
    fn is_origin_let_in(&self, head: &[u8], lines: &[HeaderSpan], host: &[u8]) -> bool
        requires { All (IsHeaderWithin (length head.now)) lines.now }
        ensures { result ≡ is_origin_let_in self.now.origins host.now (header_value (fields_of head.now lines.now) (codes "Origin")) }
    {
        match header_value(head, lines, b"Origin") {
            Some(origin) => self.is_page_let_in(host, origin),
            None => true,
        }
    }

    /// Says whether a request with these lines is let in.
    #[tactic(auto, unfolding(crate::specs::LetIn::is_let_in))]
    pub(crate) fn is_let_in(&self, head: &[u8], lines: &[HeaderSpan]) -> bool
        requires { All (IsHeaderWithin (length head.now)) lines.now }
        ensures { result ≡ is_let_in self.now.hosts self.now.origins (fields_of head.now lines.now) }
    {
        let host = header_value(head, lines, b"Host").unwrap_or(&[]);
        self.is_host_let_in(host) && self.is_origin_let_in(head, lines, host)
    }
}
