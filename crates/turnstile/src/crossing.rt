//! A turnstile and its passes may go to other threads, and a turnstile may be shared by them, where the value may go to other threads.
use crate::pass::Pass;
use crate::turnstile::Turnstile;
use forest_model::Held;

fn crosses<X: Send>(_value: &X) {}

fn is_shared<X: Sync>(_value: &X) {}

fn pass_crosses<T: Held + Send>(pass: &Pass<T>) {
    crosses(pass);
}

fn turnstile_crosses<T: Held + Send>(turnstile: &Turnstile<T>) {
    crosses(turnstile);
    is_shared(turnstile);
}
