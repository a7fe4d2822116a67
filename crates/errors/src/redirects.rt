ghost use Rattle.std.specs.Prelude.{◌≡◌, length, is_some, IfSome};
ghost use Rattle.node.specs.Address.{name_of};
ghost use Rattle.node.specs.Host.{host_form};
ghost use Rattle.resp.specs.Told.{part, Inside};
ghost use Rattle.errors.specs.Redirection.{slot as slot_of, node as node_of, redirect, told, named, Sends, sent};
ghost use Rattle.errors.specs.Examples.{RedirectExamples};

use crate::server_error::{ServerError, ServerErrorKind};
use crate::words::word;
use node::{NodeAddress, split_node_address};
use resp::number::natural;
use resp::place::Place;

// Another node's address in the text of an error: the place of its host, and its port.
// That the place lies in the text is a clause, since the fields are public and hold no text to lie in.
#[derive(Clone, Copy, Debug, PartialEq, Eq)]
pub struct Target {
    pub host: Place,
    pub port: u16,
}

impl Target {
    // The address that the target names in `text`: the host's bytes are copied beside the port.
    pub fn address(self, text: &[u8]) -> Option<NodeAddress>
        ensures form { is_some result ≡ host_form (part text.now self.host) }
        ensures value { IfSome result (λ a. name_of a ≡ named text.now self) }
    {
        NodeAddress::new(self.host.text(text), self.port)
    }
}

// A slot's number, of which only the form matters: one plus sign is allowed.
fn slot(text: &[u8]) -> Option<u16>
    ensures { result ≡ slot_of text.now }
{
    let digits = text.strip_prefix(b"+").unwrap_or(text);
    u16::try_from(natural(digits)?).ok()
}

// The address that the second word of an error's detail names, behind a slot's number.
pub fn redirect_node(detail: &[u8]) -> Option<Target>
    ensures within { IfSome result (λ t. Inside (length detail.now) t.host) }
    ensures value { told detail.now result ≡ node_of detail.now }
{
    let first = word(detail, 0);
    slot(first.text(detail))?;
    let second = word(detail, first.end);
    let split = split_node_address(second.text(detail))?;
    let host = Place {
        start: 0,
        end: split.host,
    };
    Some(Target {
        host: host.moved(second.start),
        port: split.port,
    })
}

// The address that the detail at the place names, with its own place in the whole text.
fn target_in(text: &[u8], detail: Place) -> Option<Target>
    requires { Inside (length text.now) detail }
    ensures within { IfSome result (λ t. Inside (length text.now) t.host) }
    ensures value { told text.now result ≡ node_of (part text.now detail) }
{
    let target = redirect_node(detail.text(text))?;
    Some(Target {
        host: target.host.moved(detail.start),
        ..target
    })
}

// Where an error sends its command: for good, or this once, behind ASKING.
#[derive(Clone, Copy, Debug, PartialEq, Eq)]
pub enum Redirect {
    Moved(Target),
    Ask(Target),
}

impl Redirect {
    // The redirect in the text of an error, with places in that text.
    pub fn read(text: &[u8]) -> Option<Redirect>
        ensures within { Sends (length text.now) result }
        ensures value { sent text.now result ≡ redirect text.now }
    {
        let error = ServerError::read(text);
        // The kind first: behind a code that is not known the detail, which may be long, is not looked at.
        let kind = error.kind?;
        let target = target_in(text, error.detail?)?;
        match kind {
            ServerErrorKind::Moved => Some(Redirect::Moved(target)),
            ServerErrorKind::Ask => Some(Redirect::Ask(target)),
            _ => None,
        }
    }
}

// A theorem, and nothing to run: the worked examples of redirects.
#[tactic(auto, unfolding(crate::specs::Codes::kind))]
pub fn redirect_examples()
    ensures { RedirectExamples }
{}
