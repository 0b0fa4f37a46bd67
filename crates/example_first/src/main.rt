//! A first program: reads the age of a stored response from a map, and replaces it by the age a
//! minute later.
#![tactic(auto)]

ghost use Rattle.std.specs.Prelude.{◌≡◌, IfOk};

use headers::laws::numbers_read_back;
use headers::{
    Age, CacheControl, Error, Header, HeaderMap, HeaderMapExt, HeaderValue, Refused, decode_values,
};
use std::alloc::Global;

// An age survives a round trip.
fn round_trip(alloc: Global, seconds: u64) -> Result<Age, Refused<Error>>
    ensures { IfOk result (λ age. age ≡ seconds) }
{
    numbers_read_back();
    let mut values = Vec::new(alloc);
    Age::from_secs(seconds).encode(alloc, &mut values)?;
    decode_values::<Age>(alloc, values.as_slice())
}

fn main(rt: HostRuntime) -> anyhow::Result<()> {
    let alloc = rt.alloc();
    let mut map = HeaderMap::new(alloc);
    map.append("age", HeaderValue::from_static("+007"))?;
    map.typed_insert(alloc, CacheControl::new().with_public())?;

    let Some(age) = map.typed_try_get::<Age>(alloc)? else {
        return Ok(());
    };
    println!(rt; "age: {}", age.as_secs())?;

    let later = round_trip(alloc, age.as_secs().saturating_add(60))?;
    map.typed_insert(alloc, later)?;
    for (name, value) in map.iter() {
        println!(rt; "{name}: {}", value.to_str()?)?;
    }
    Ok(())
}
