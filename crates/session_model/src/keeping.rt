//! What calls keep.
ghost use Rattle.session_model.specs.Keeping.{AgreementStays, ApartStays, FitStays, OpeningAgrees, OpeningApart, OpeningFits};
ghost use Rattle.session_model.specs.Keeping.{OpeningValued, OpeningWithin, PlacesStay, RiseStays, ValuesStay, WithinStays};

/// The agreement of the sets with the book holds at the beginning and is kept by each good call.
pub fn agreement_laws()
    ensures opening { OpeningAgrees }
    ensures stays { AgreementStays }
{}

/// Windows lie in the past, stamps rise, and of each component at most one set runs: at the beginning, and after each call.
pub fn window_laws()
    ensures opening_within { OpeningWithin }
    ensures within { WithinStays }
    ensures rises { RiseStays }
    ensures opening_apart { OpeningApart }
    ensures apart { ApartStays }
{}

/// A thread keeps its places of sets, and each set one value of the caller for each event.
pub fn place_laws()
    ensures places { PlacesStay }
    ensures opening_valued { OpeningValued }
    ensures values { ValuesStay }
{}

/// Sets fit the book and the shape: at the beginning, and after each good call.
pub fn fit_laws()
    ensures opening { OpeningFits }
    ensures stays { FitStays }
{}
