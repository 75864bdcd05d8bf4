//! The questions of rows to a desk.
use bureau::Call;
use mcs_reader::Id;
use questions::{Form, Wanted};

/// The call of a request such as `PUT /zones/TGT1 1`, with the lines before it as its body. `None` if it is none.
pub(crate) fn call_of<'a>(request: &str, body: &'a [u8]) -> Option<Call<'a>> {
    let (method, rest) = request.split_once(' ')?;
    let (path, number) = rest.split_once(' ').unwrap_or((rest, ""));
    let number = number.parse::<u64>().ok();
    match path {
        "/publish" => Some(Call::Publish { number, body }),
        "/received" => Some(Call::PutReceived { number, body }),
        "/published" => Some(Call::Counts { form: Form::Text }),
        "/published.json" => Some(Call::Counts { form: Form::Json }),
        "/zones" => Some(Call::ListZones { form: Form::Text }),
        "/zones.json" => Some(Call::ListZones { form: Form::Json }),
        _ => call_in_zone(method, path, number, body),
    }
}

// The call of a request that names a zone.
fn call_in_zone<'a>(
    method: &str,
    path: &str,
    number: Option<u64>,
    body: &'a [u8],
) -> Option<Call<'a>> {
    let rest = path.strip_prefix("/zones/")?;
    let (zone, what) = rest.split_once('/').unwrap_or((rest, ""));
    let zone = Id::new(zone.as_bytes())?;
    match (method, what) {
        ("PUT", "") => Some(Call::PutZone { number, zone, body }),
        ("DELETE", "") => Some(Call::DropZone { number, zone }),
        ("PUT", "categories") => Some(Call::PutPatterns { number, zone, body }),
        ("GET", _) => question(zone, what),
        _ => None,
    }
}

// A question about a zone.
fn question(zone: Id, what: &str) -> Option<Call<'static>> {
    if let Some(rest) = what.strip_prefix("errsysmods") {
        let wanted = wanted_by(rest)?;
        return Some(Call::ErrSysmods { zone, wanted });
    }
    if let Some(rest) = what.strip_prefix("missingfix") {
        let wanted = wanted_by(rest)?;
        return Some(Call::MissingFix { zone, wanted });
    }
    if what == "counts.json" {
        return Some(Call::ZoneCounts { zone });
    }
    chain(zone, what)
}

// The rows of a report or the plan for it, by the path after the report's name.
fn wanted_by(rest: &str) -> Option<Wanted> {
    match rest {
        "" => Some(Wanted::Rows(Form::Text)),
        ".json" => Some(Wanted::Rows(Form::Json)),
        "/plan" => Some(Wanted::Plan(Form::Text)),
        "/plan.json" => Some(Wanted::Plan(Form::Json)),
        _ => None,
    }
}

fn chain(zone: Id, what: &str) -> Option<Call<'static>> {
    let sysmod = Id::new(what.strip_prefix("chains/")?.as_bytes())?;
    Some(Call::Chain { zone, sysmod })
}
