// Which field of a record breaks its range or rule: the lowest that does, counted from 1. It is a number, and no enum of
// one kind's fields, since it is handed on for records of every kind and told as that number.
#[derive(Clone, Copy, PartialEq, Eq)]
pub struct FieldFault {
    pub field: u8,
}
