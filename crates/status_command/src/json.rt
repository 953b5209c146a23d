//! A status and whether it is well, as one object of JSON.

use host_folders::Worker;
use plant_status::{Busy, Health, HeardMember, Missing, Moment, NumberSpan, Purpose, Status};
use serde_json::{Map, Value, push, put};
use std::alloc::{AllocError, Global};

/// A value that holds no other.
#[derive(Clone, Copy)]
enum Leaf {
    Number(u32),
    Truth(bool),
    /// A moment; null where there is none.
    Moment(Option<Moment>),
    Purpose(Purpose),
    /// The number of a process; null where there is none.
    Process(Option<u32>),
}

impl Leaf {
    /// The value of JSON.
    fn value(self, alloc: Global) -> Result<Value, AllocError> {
        match self {
            Leaf::Number(number) => Ok(Value::from(number)),
            Leaf::Truth(is_so) => Ok(Value::Bool(is_so)),
            Leaf::Moment(None) => Ok(Value::Null),
            Leaf::Moment(Some(moment)) => Ok(Value::String(format!(in alloc; "{moment}")?)),
            Leaf::Purpose(purpose) => Value::try_from_str(alloc, purpose.word()),
            Leaf::Process(Some(number)) => Ok(Value::from(number)),
            Leaf::Process(None) => Ok(Value::Null),
        }
    }
}

/// Puts a value into an object, where there was memory for it.
fn add(
    object: &mut Map<String, Value>,
    alloc: Global,
    name: &str,
    value: Result<Value, AllocError>,
) -> Result<(), AllocError> {
    put(object, alloc, name, value?)
}

/// An object of such values.
fn object(alloc: Global, leaves: &[(&str, Leaf)]) -> Result<Value, AllocError> {
    let mut object = Map::new(alloc);
    for (name, leaf) in leaves {
        add(&mut object, alloc, name, leaf.value(alloc))?;
    }
    Ok(Value::Object(object))
}

/// What is an object in a list.
trait JsonItem {
    /// The object.
    fn value(&self, alloc: Global) -> Result<Value, AllocError>;
}

impl JsonItem for HeardMember {
    fn value(&self, alloc: Global) -> Result<Value, AllocError> {
        let member = Leaf::Number(u32::from(self.member));
        let leaves = [
            ("member", member),
            ("heard", Leaf::Moment(self.at)),
            ("older", Leaf::Truth(self.is_older)),
        ];
        object(alloc, &leaves)
    }
}

impl JsonItem for Busy {
    fn value(&self, alloc: Global) -> Result<Value, AllocError> {
        let leaves = [
            ("number", Leaf::Number(self.number)),
            ("purpose", Leaf::Purpose(self.purpose)),
            ("round", Leaf::Number(self.round)),
            ("owner", Leaf::Number(u32::from(self.owner))),
        ];
        object(alloc, &leaves)
    }
}

impl JsonItem for NumberSpan {
    fn value(&self, alloc: Global) -> Result<Value, AllocError> {
        let (first, last) = (Leaf::Number(self.first), Leaf::Number(self.last));
        object(alloc, &[("first", first), ("last", last)])
    }
}

/// A list of such objects.
fn list<T: JsonItem>(alloc: Global, items: &[T]) -> Result<Value, AllocError> {
    let mut list = Vec::new(alloc);
    for item in items {
        push(&mut list, item.value(alloc)?)?;
    }
    Ok(Value::Array(list))
}

/// Puts what is missing into an object.
fn add_missing(
    object: &mut Map<String, Value>,
    alloc: Global,
    missing: &Missing,
) -> Result<(), AllocError> {
    let since = Leaf::Moment(Some(missing.since));
    add(
        object,
        alloc,
        "ranges",
        list(alloc, missing.spans.as_slice()),
    )?;
    add(
        object,
        alloc,
        "more",
        Leaf::Truth(missing.more).value(alloc),
    )?;
    add(object, alloc, "since", since.value(alloc))
}

/// What is missing; null where nothing is.
fn missing(alloc: Global, missing: &Option<Missing>) -> Result<Value, AllocError> {
    let Some(missing) = missing else {
        return Ok(Value::Null);
    };
    let mut object = Map::new(alloc);
    add_missing(&mut object, alloc, missing)?;
    Ok(Value::Object(object))
}

/// Which station it is, and since when it is up.
fn station(alloc: Global, status: &Status) -> Result<Value, AllocError> {
    let station = status.station;
    let leaves = [
        ("member", Leaf::Number(u32::from(station.member))),
        ("count", Leaf::Number(u32::from(station.count))),
        ("circuit", Leaf::Number(u32::from(station.circuit))),
        ("layout", Leaf::Number(u32::from(station.layout))),
        ("since", Leaf::Moment(Some(status.since))),
    ];
    object(alloc, &leaves)
}

/// What is counted of files and numbers.
fn counts(alloc: Global, status: &Status) -> Result<Value, AllocError> {
    let (released, offers) = (status.released, status.offers);
    let leaves = [
        ("released", Leaf::Number(released.count)),
        ("greatest", Leaf::Number(released.greatest)),
        ("waiting", Leaf::Number(offers.waiting)),
        ("lost", Leaf::Number(offers.lost)),
        ("refused", Leaf::Number(offers.refused)),
        ("unwritten", Leaf::Number(status.unwritten)),
    ];
    object(alloc, &leaves)
}

/// What is not well.
fn health(alloc: Global, health: &Health) -> Result<Value, AllocError> {
    let leaves = [
        ("well", Leaf::Truth(health.is_well())),
        ("old", Leaf::Truth(health.is_old)),
        ("alone", Leaf::Truth(health.is_alone)),
        ("missing", Leaf::Truth(health.is_missing)),
    ];
    object(alloc, &leaves)
}

/// The process that holds the offers, where the host lists one.
fn holder(worker: Option<Worker>) -> Leaf {
    match worker {
        Some(Worker::Process(process)) => Leaf::Process(Some(process)),
        Some(Worker::Nobody | Worker::Unlisted) | None => Leaf::Process(None),
    }
}

/// Puts into an object which process holds the offers, and whether the host lists who does.
fn add_worker(
    whole: &mut Map<String, Value>,
    alloc: Global,
    worker: Option<Worker>,
) -> Result<(), AllocError> {
    let is_listed = !matches!(worker, Some(Worker::Unlisted));
    add(whole, alloc, "holder", holder(worker).value(alloc))?;
    add(whole, alloc, "listed", Leaf::Truth(is_listed).value(alloc))
}

/// Puts all that is told into an object.
fn add_all(
    whole: &mut Map<String, Value>,
    alloc: Global,
    status: &Status,
    found: &Health,
) -> Result<(), AllocError> {
    let written = Leaf::Moment(Some(status.written));
    add(whole, alloc, "station", station(alloc, status))?;
    add(
        whole,
        alloc,
        "members",
        list(alloc, status.members.as_slice()),
    )?;
    add(
        whole,
        alloc,
        "under_way",
        list(alloc, status.busy.as_slice()),
    )?;
    add(whole, alloc, "missing", missing(alloc, &status.missing))?;
    add(whole, alloc, "counts", counts(alloc, status))?;
    add(whole, alloc, "written", written.value(alloc))?;
    add(whole, alloc, "health", health(alloc, found))
}

/// A status, whether it is well and which process holds the offers, as one object on a line.
pub(crate) fn json_of(
    alloc: Global,
    status: &Status,
    found: &Health,
    worker: Option<Worker>,
) -> Result<String, AllocError> {
    let mut whole = Map::new(alloc);
    add_all(&mut whole, alloc, status, found)?;
    add_worker(&mut whole, alloc, worker)?;
    let mut text = Value::Object(whole).to_string(alloc)?;
    text.push_str("\n")?;
    Ok(text)
}
