// The groups of cases, one a file.
pub mod cuts;
pub mod every_byte;
pub mod every_key;
pub mod letter_case;
pub mod longest;
pub mod malformed;
pub mod out_of_order;
pub mod random_sheets;
pub mod strikes;
