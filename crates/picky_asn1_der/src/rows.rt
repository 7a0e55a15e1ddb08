//! Rows of fields, by the names of a struct's fields.

/// The row of these fields, as a pattern or a value: `row![a, b]`. A last `; rest` takes all behind them.
#[macro_export]
macro_rules! row {
    () => { () };
    (; $rest:ident) => { $rest };
    ($first:ident $(, $more:ident)* $(; $rest:ident)?) => { ($first, $crate::row![$($more),* $(; $rest)?]) };
}

/// The row of these fields of a value, borrowed: `fields_of![self; a, b]`. A last `; rest` borrows [`Elements`](crate::Elements).
#[macro_export]
macro_rules! fields_of {
    ($value:expr;) => { () };
    ($value:expr; ; $rest:ident) => { $value.$rest.as_slice() };
    ($value:expr; $first:ident $(, $more:ident)* $(; $rest:ident)?) => { (&$value.$first, $crate::fields_of![$value; $($more),* $(; $rest)?]) };
}

/// The value of `Self` that has the fields of a row: `from_fields![row; a, b]`. A last `; rest` takes all behind them.
#[macro_export]
macro_rules! from_fields {
    ($fields:expr; $($name:ident),* $(; $rest:ident)?) => {{
        let $crate::row![$($name),* $(; $rest)?] = $fields;
        Self { $($name,)* $($rest)? }
    }};
}
