//! SQL texts that create databases of version 1.

/// The six tables.
const TABLES: &str = "\
CREATE TABLE portal (id INTEGER NOT NULL PRIMARY KEY CHECK (id = 1), version INTEGER NOT NULL, \
    phase INTEGER NOT NULL, office TEXT NOT NULL) STRICT; \
CREATE TABLE lecturer (key TEXT NOT NULL PRIMARY KEY, name TEXT NOT NULL, code TEXT NOT NULL UNIQUE, \
    capacity INTEGER NOT NULL CHECK (capacity >= 1 AND capacity <= 200), \
    ranked INTEGER NOT NULL CHECK (ranked = 0 OR ranked = 1)) STRICT; \
CREATE TABLE project (key TEXT NOT NULL PRIMARY KEY, lecturer TEXT NOT NULL REFERENCES lecturer (key), \
    title TEXT NOT NULL, capacity INTEGER NOT NULL CHECK (capacity >= 1 AND capacity <= 200)) STRICT; \
CREATE TABLE student (key TEXT NOT NULL PRIMARY KEY, name TEXT NOT NULL, code TEXT NOT NULL UNIQUE, \
    assigned TEXT REFERENCES project (key)) STRICT; \
CREATE TABLE choice (student TEXT NOT NULL REFERENCES student (key), place INTEGER NOT NULL, \
    project TEXT NOT NULL REFERENCES project (key), \
    PRIMARY KEY (student, place), UNIQUE (project, student)) STRICT; \
CREATE TABLE ranking (lecturer TEXT NOT NULL REFERENCES lecturer (key), place INTEGER NOT NULL, \
    student TEXT NOT NULL REFERENCES student (key), \
    PRIMARY KEY (lecturer, place), UNIQUE (student, lecturer)) STRICT";

/// An equivalent schema: other terms of CHECK, and the columns of UNIQUE in the other order.
const TABLES_OTHERWISE: &str = "\
CREATE TABLE portal (id INTEGER NOT NULL PRIMARY KEY CHECK (id = 1), version INTEGER NOT NULL, \
    phase INTEGER NOT NULL, office TEXT NOT NULL) STRICT; \
CREATE TABLE lecturer (key TEXT NOT NULL PRIMARY KEY, name TEXT NOT NULL, code TEXT NOT NULL UNIQUE, \
    capacity INTEGER NOT NULL CHECK (capacity BETWEEN 1 AND 200), \
    ranked INTEGER NOT NULL CHECK (ranked IN (0, 1))) STRICT; \
CREATE TABLE project (key TEXT NOT NULL PRIMARY KEY, lecturer TEXT NOT NULL REFERENCES lecturer (key), \
    title TEXT NOT NULL, capacity INTEGER NOT NULL CHECK (capacity BETWEEN 1 AND 200)) STRICT; \
CREATE TABLE student (key TEXT NOT NULL PRIMARY KEY, name TEXT NOT NULL, code TEXT NOT NULL UNIQUE, \
    assigned TEXT REFERENCES project (key)) STRICT; \
CREATE TABLE choice (student TEXT NOT NULL REFERENCES student (key), place INTEGER NOT NULL, \
    project TEXT NOT NULL REFERENCES project (key), \
    PRIMARY KEY (student, place), UNIQUE (student, project)) STRICT; \
CREATE TABLE ranking (lecturer TEXT NOT NULL REFERENCES lecturer (key), place INTEGER NOT NULL, \
    student TEXT NOT NULL REFERENCES student (key), \
    PRIMARY KEY (lecturer, place), UNIQUE (lecturer, student)) STRICT";

/// The office's row, in setup, and the rolls of the worked world.
const ROLLS: &str = "\
INSERT INTO portal (version, phase, office) VALUES (1, 0, 'office-code-0'); \
INSERT INTO lecturer (key, name, code, capacity, ranked) VALUES \
    ('L1', 'Lee', 'lee-code-01', 2, 0), ('L2', 'Moe', 'moe-code-02', 1, 0); \
INSERT INTO project (key, lecturer, title, capacity) VALUES \
    ('P1', 'L1', 'Tides', 1), ('P2', 'L1', 'Kites', 1), ('P3', 'L2', 'Bells', 1); \
INSERT INTO student (key, name, code) VALUES \
    ('S1', 'Ann', 'ann-code-1'), ('S2', 'Roe, Bea', 'bea-code-2'), ('S3', 'Cyr', 'cyr-code-3')";

/// The move to choosing, and the lists of the worked world.
const LISTS: &str = "\
UPDATE portal SET phase = 1; \
INSERT INTO choice (student, place, project) VALUES \
    ('S1', 1, 'P1'), ('S1', 2, 'P2'), ('S2', 1, 'P1'), ('S2', 2, 'P3')";

/// The move to ranking.
const TO_RANKING: &str = "UPDATE portal SET phase = 2";

/// The rankings of the worked world, and the publication of its result.
const PUBLICATION: &str = "\
INSERT INTO ranking (lecturer, place, student) VALUES \
    ('L1', 1, 'S2'), ('L1', 2, 'S1'), ('L2', 1, 'S2'); \
UPDATE lecturer SET ranked = 1; \
UPDATE student SET assigned = 'P2' WHERE key = 'S1'; \
UPDATE student SET assigned = 'P1' WHERE key = 'S2'; \
UPDATE portal SET phase = 3";

/// A database in setup. The next three are in the later phases.
pub const IN_SETUP: &[&str] = &[TABLES, ROLLS];

pub const IN_CHOOSING: &[&str] = &[TABLES, ROLLS, LISTS];

pub const IN_RANKING: &[&str] = &[TABLES, ROLLS, LISTS, TO_RANKING];

pub const IN_PUBLISHED: &[&str] = &[TABLES, ROLLS, LISTS, TO_RANKING, PUBLICATION];

/// A database in ranking, with the equivalent schema.
pub const OTHERWISE: &[&str] = &[TABLES_OTHERWISE, ROLLS, LISTS, TO_RANKING];
