// Listings. A function gives each of them, so that what is proved of a test doesn't read its bytes.

/// One form of rank 2 over GF(3), the unit form.
pub fn unit_form() -> &'static [u8] {
    b"macek listing 1\n\
version 1\n\
field 3\n\
rank 2\n\
size 2\n\
print forms\n\
level 2 classes 1 listed 1 tried 0\n\
10 01\n\
end\n"
}

/// The binary forms of rank 3, of at most four columns.
pub fn binary_to_four() -> &'static [u8] {
    b"macek listing 1\n\
version 1\n\
field 2\n\
rank 3\n\
size 4\n\
print forms\n\
level 3 classes 1 listed 1 tried 0\n\
100 010 001\n\
level 4 classes 2 listed 2 tried 4\n\
100 010 001 011\n\
100 010 001 111\n\
end\n"
}

/// The binary forms of rank 3, of at most seven columns.
pub fn binary_to_seven() -> &'static [u8] {
    b"macek listing 1\n\
version 1\n\
field 2\n\
rank 3\n\
size 7\n\
print forms\n\
level 3 classes 1 listed 1 tried 0\n\
100 010 001\n\
level 4 classes 2 listed 2 tried 4\n\
100 010 001 011\n\
100 010 001 111\n\
level 5 classes 1 listed 1 tried 6\n\
100 010 001 011 101\n\
level 6 classes 1 listed 1 tried 2\n\
100 010 001 011 101 110\n\
level 7 classes 1 listed 1 tried 1\n\
100 010 001 011 101 110 111\n\
end\n"
}

/// The numbers of the fourth sample.
pub fn fourth_sample() -> &'static [u8] {
    b"macek listing 1\n\
version 1\n\
field 2\n\
rank 4\n\
size 15\n\
forbid K4\n\
print counts\n\
level 4 classes 1 listed 1 tried 0\n\
level 5 classes 3 listed 3 tried 11\n\
level 6 classes 4 listed 4 tried 30\n\
level 7 classes 2 listed 2 tried 18\n\
level 8 classes 0 listed 0 tried 0\n\
level 9 classes 0 listed 0 tried 0\n\
level 10 classes 0 listed 0 tried 0\n\
level 11 classes 0 listed 0 tried 0\n\
level 12 classes 0 listed 0 tried 0\n\
level 13 classes 0 listed 0 tried 0\n\
level 14 classes 0 listed 0 tried 0\n\
level 15 classes 0 listed 0 tried 0\n\
end\n"
}
