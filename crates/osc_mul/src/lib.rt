//! Products, quotients and remainders: the M extension on numbers. `mul_value` is what an operation
//! gives, and the other functions are laws of it, with nothing to run: what the numbers that it gives
//! have to do with the whole numbers that went in.
#![tactic(auto)]

mod laws;
mod value;

pub use laws::{
    halves_of_a_product, least_by_minus_one, least_word_by_minus_one, one_quotient_and_remainder,
    quotient_by_zero, quotient_of_words_by_zero, signed_quotient, signed_quotient_of_words,
    unsigned_quotient, unsigned_quotient_of_words, words_are_extended,
};
pub use value::mul_value;

#[cfg(test)]
mod tests;
