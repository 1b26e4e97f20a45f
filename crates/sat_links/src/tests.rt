mod queue;
mod watches;
