mod grown;
mod held;
mod meetings;
mod plainly;
