//! Tests of networks of machines in threads: five machines with a fork and a join, over links of several sizes.

mod five;
