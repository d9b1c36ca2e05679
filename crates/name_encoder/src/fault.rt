//! Why a text names no native event.

ghost use Rattle.std.specs.Prelude.{◌≡◌};
ghost use Rattle.name_encoder.specs.Names as Names;

use papi_base::Code;
use thiserror::Error;

/// Why a text names no native event, after the error codes of pfm_get_os_event_encoding(3).
#[derive(Clone, Copy, Debug, Error)]
pub enum NameFault {
    /// No component that agrees with the prefixes has the event.
    #[error("no such event")]
    NotFound,
    /// The event has umasks, none is named and none is the default.
    #[error("no umask given")]
    Umask,
    /// A umask that cannot be combined is combined.
    #[error("umasks that cannot be combined")]
    FeatComb,
    /// An attribute is neither a umask nor a modifier.
    #[error("no such attribute")]
    Attr,
    /// An attribute has a value that it cannot have, or lacks one.
    #[error("bad attribute value")]
    AttrVal,
    /// An attribute is given twice.
    #[error("attribute given twice")]
    AttrSet,
}

/// The word that names a fault.
pub fn cause_word(f: NameFault) -> &'static str
    ensures { result.now ≡ Names.word_of f }
{
    match f {
        NameFault::NotFound => "NOTFOUND",
        NameFault::Umask => "UMASK",
        NameFault::FeatComb => "FEATCOMB",
        NameFault::Attr => "ATTR",
        NameFault::AttrVal => "ATTR_VAL",
        NameFault::AttrSet => "ATTR_SET",
    }
}

/// The code with which a call answers a fault: PAPI_event_name_to_code(3).
pub fn cause_code(f: NameFault) -> Code
    ensures { result ≡ Names.fault_code f }
{
    match f {
        NameFault::NotFound => Code::Enoevnt,
        NameFault::FeatComb => Code::Ecombo,
        NameFault::Umask | NameFault::Attr | NameFault::AttrVal | NameFault::AttrSet => Code::Eattr,
    }
}
