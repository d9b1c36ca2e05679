//! The codes that calls answer.
ghost use Rattle.std.specs.Prelude.{◌≡◌};
ghost use Rattle.papi_base.specs.Codes.{number_of, name_of};

/// What a call answers: PAPI's success, and its errors as far as calls on event sets give them.
#[derive(Clone, Copy, Debug, PartialEq, Eq)]
pub enum Code {
    Ok,
    Einval,
    Esys,
    Enoevnt,
    Ecnflct,
    Enotrun,
    Eisrun,
    Enoevst,
    Enocmp,
    Eattr,
    Ecount,
    Ecombo,
}

/// The number and the name of a code in PAPI's header.
fn row_of(c: Code) -> (i32, &'static str)
    ensures number { result.0 ≡ number_of c }
    ensures name { result.1.now ≡ name_of c }
{
    match c {
        Code::Ok => (0, "PAPI_OK"),
        Code::Einval => (-1, "PAPI_EINVAL"),
        Code::Esys => (-3, "PAPI_ESYS"),
        Code::Enoevnt => (-7, "PAPI_ENOEVNT"),
        Code::Ecnflct => (-8, "PAPI_ECNFLCT"),
        Code::Enotrun => (-9, "PAPI_ENOTRUN"),
        Code::Eisrun => (-10, "PAPI_EISRUN"),
        Code::Enoevst => (-11, "PAPI_ENOEVST"),
        Code::Enocmp => (-17, "PAPI_ENOCMP"),
        Code::Eattr => (-22, "PAPI_EATTR"),
        Code::Ecount => (-23, "PAPI_ECOUNT"),
        Code::Ecombo => (-24, "PAPI_ECOMBO"),
    }
}

/// The number of a code in PAPI's header: 0 for success, below 0 for errors.
pub fn code_number(c: Code) -> i32
    ensures number { result ≡ number_of c }
{
    row_of(c).0
}

/// The name of a code in PAPI's header.
pub fn code_name(c: Code) -> &'static str
    ensures name { result.now ≡ name_of c }
{
    row_of(c).1
}
