mod names;
mod script;
mod served;
