// The ordered list: its records stand in a `Vec` whose capacity, the space of the list, stays as it was reserved.
// That they rise is each client's ghost field: a field here would ask `T: Ranked` of calls that need no order. No map, since
// its memory is reserved once, and what is removed must give its place back.
mod methods;
mod seek;

// The space of the list is used up.
#[derive(Clone, Copy)]
pub struct Full;

#[derive(Drop)]
pub struct OrderedList<T> {
    records: Vec<T>,
}
