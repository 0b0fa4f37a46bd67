//! What follows from the definitions alone. A proof cites a law by calling it.
ghost use Rattle.std.{specs.Prelude.{◌≡◌, ◌≢◌, ℕ, List}, specs.List.AllPairs};
ghost use Rattle.headers.specs.LineMap.{Field, LineMap, set_all};
ghost use Rattle.c_resource.specs.Settled.{settled};

/// Setting the fields of an answer's text leaves in any response what setting the answer's fields in
/// their order leaves. Each name is there once.
pub fn settled_fields_set_the_same()
    ensures same { (response : LineMap) (fields : List Field) (name : List ℕ)
        → set_all response (settled fields) name ≡ set_all response fields name }
    ensures once { (fields : List Field) → AllPairs (λ (one other : Field). one.0 ≢ other.0) (settled fields) }
{}
